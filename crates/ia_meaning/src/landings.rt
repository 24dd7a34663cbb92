//! Where branches go (volume 3, chapter 2, `br`).

ghost use Rattle.std.specs.Prelude.{◌≡◌, ◌<◌, ◌^◌};
ghost use Rattle.ia_meaning.specs.Landings.{target_of};

/// The target of a direct branch in a bundle: the bundle that is `disp` bundles from it. A program's
/// targets are its bundles; of a sum below 0 it is the distance.
pub fn target_of(bundle: u32, disp: i32) -> u32
    requires { bundle < 2 ^ 31 }
    ensures { result ≡ target_of bundle disp }
{
    (i64::from(bundle) + i64::from(disp)).unsigned_abs() as u32
}
