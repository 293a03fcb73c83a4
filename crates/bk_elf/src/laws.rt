// What holds of objects and their files, whatever the code.
ghost use Rattle.std.specs.Prelude.{◌≡◌, ℕ, ◌<◌, ◌^◌, List, Ok};
ghost use Rattle.std.specs.List.{All};
ghost use Rattle.bk_elf.specs.Records.{ObjectRecord};
ghost use Rattle.bk_elf.specs.Object.{IsObject, IsTyped, IsWide, narrowed};
ghost use Rattle.bk_elf.specs.File.{file_of, IsFileOf};
ghost use Rattle.bk_elf.specs.Loading.{loaded};

/// What is written is loaded as the same fields, but for what of a symbol's address and size is beyond 32 bits, and no other
/// files are loaded.
pub fn objects_and_files()
    ensures written { (o : ObjectRecord) → IsObject o → IsTyped o → loaded (file_of o) ≡ Ok o }
    ensures wide { (o : ObjectRecord) → IsObject o → IsWide o → loaded (file_of o) ≡ Ok (narrowed o) }
    ensures loaded { (bytes : List ℕ) (o : ObjectRecord) → All (λ b. b < 2 ^ 8) bytes → loaded bytes ≡ Ok o → IsObject o × IsTyped o × IsFileOf bytes o }
    ensures once { (a b : ObjectRecord) → IsObject a → IsWide a → IsObject b → IsWide b → file_of a ≡ file_of b → a ≡ b }
{}
