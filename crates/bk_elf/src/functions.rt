// The functions of an object by name.
ghost use Rattle.std.specs.Prelude.{◌≡◌, ◌↔◌, false, option_map, IsNone, IfSome};
ghost use Rattle.bk_elf.specs.Object.{IsObject, IsSig};
ghost use Rattle.bk_elf.specs.Functions.{has_function, function_of};

use crate::Image;
use bk_func::Sig;

/// The address and the signature of the function of the name, None where no function has it.
pub fn function<'a>(image: &'a Image, name: &str) -> Option<(u32, &'a Sig)>
    requires { IsObject image.now }
    ensures value { option_map (λ f. (f.0, f.1.now)) result ≡ function_of image.now name.now }
    ensures none { IsNone result ↔ (has_function image.now name.now ≡ false) }
    ensures sig { IfSome result (λ f. IsSig image.now.types f.1.now) }
{
    found(image, name)
}

fn found<'a>(image: &'a Image, name: &str) -> Option<(u32, &'a Sig)>
    ensures { option_map (λ f. (f.0, f.1.now)) result ≡ function_of image.now name.now }
{
    let mut place = 0;
    for symbol in &image.symbols {
        if symbol.func {
            if symbol.name.as_str() == name {
                let sig = image.sigs.get(place)?;
                return Some((symbol.address, sig));
            }
            place += 1;
        }
    }
    None
}
