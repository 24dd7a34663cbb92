//! How runs end.

ghost use Rattle.std.specs.Prelude.{◌≡◌};
ghost use Rattle.ia_meaning.specs.Progress.{end_or};

use ia_program::{End, Place};

/// How a run ends that has come to this end, or that stands at this place without one: by the limit of groups
/// there.
pub fn end_or(end: Option<End>, place: Place) -> End
    ensures { result ≡ end_or end place }
{
    end.unwrap_or(End::Limit { place })
}
