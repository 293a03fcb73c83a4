// Writing the signatures of an object.
ghost use Rattle.std.specs.Prelude.{◌≡◌, ◌+◌, ◌^◌, ◌<◌, ◌≤◌, ◌++◌, ◌==◌, length, map, position, OnOk, IfOk, IfSome};
ghost use Rattle.std.specs.List.{All};
ghost use Rattle.bk_elf.specs.Contents.{place_of_code, place_of_type, sig_words, gosig_words};

use bk_func::Sig;
use bk_ops::{Ty, code};
use std::alloc::{AllocError, Global};

/// The words of the signatures: the count of the types' codes, the codes, and each signature.
#[tactic(auto, unfolding(crate::specs::Contents::gosig_words))]
pub(crate) fn gosig_words(
    alloc: Global,
    codes: &[u32],
    sigs: &[Sig],
) -> Result<Vec<u32>, AllocError>
    requires codes { length codes.now < 2 ^ 32 }
    requires sigs { All (λ s. length s.args + length s.results ≤ 64) sigs.now }
    ensures { IfOk result (λ words. words.items ≡ gosig_words codes.now sigs.now) }
{
    let mut words = Vec::new(alloc);
    words.push(codes.len() as u32)?;
    words.extend_from_slice(codes)?;
    for sig in sigs {
        put_sig(&mut words, codes, sig)?;
    }
    Ok(words)
}

/// Appends the counts of the arguments and results, and the places of their types' codes.
#[tactic(auto, unfolding(crate::specs::Contents::sig_words))]
fn put_sig(words: &mut Vec<u32>, codes: &[u32], sig: &Sig) -> Result<(), AllocError>
    requires codes { length codes.now < 2 ^ 32 }
    requires few { length sig.now.args + length sig.now.results ≤ 64 }
    ensures { OnOk result (words.new.items ≡ words.old.items ++ sig_words codes.now sig.now) }
{
    words.push(sig.args.len() as u32)?;
    words.push(sig.results.len() as u32)?;
    put_types(words, codes, &sig.args)?;
    put_types(words, codes, &sig.results)?;
    Ok(())
}

/// Appends the place of each type's code among the codes.
fn put_types(words: &mut Vec<u32>, codes: &[u32], types: &[Ty]) -> Result<(), AllocError>
    requires { length codes.now < 2 ^ 32 }
    ensures { OnOk result (words.new.items ≡ words.old.items ++ map (place_of_type codes.now) types.now) }
{
    for ty in types {
        words.push(place_of(codes, code(*ty)))?;
    }
    Ok(())
}

/// The place of a type's code among the codes.
fn place_of(codes: &[u32], code: Option<u32>) -> u32
    requires { length codes.now < 2 ^ 32 }
    ensures { result ≡ place_of_code codes.now code }
{
    match code {
        Some(code) => place_in(codes, code).unwrap_or(0) as u32,
        None => 0,
    }
}

fn place_in(codes: &[u32], code: u32) -> Option<usize>
    ensures found { result ≡ position (λ c. c == code) codes.now }
    ensures within { IfSome result (λ place. place < length codes.now) }
{
    codes.iter().position(|known| *known == code)
}
