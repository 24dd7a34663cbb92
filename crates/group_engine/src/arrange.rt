//! Orders of writes.

ghost use Rattle.std.specs.Prelude.{◌≡◌, length};
ghost use Rattle.ia_meaning.specs.WriteOrders.{arranged};
ghost use Rattle.ia_meaning.specs.NumberedRuns.{order};

/// Puts the items into the order with this number, in place.
#[tactic(auto, using(crate::proofs::Arranging::arranged_all, crate::proofs::Arranging::arranged_more))]
pub(crate) fn arrange<T>(items: &mut [T], number: u64)
    ensures { items.new ≡ arranged (order number (length items.old)) items.old }
{
    let mut left = number;
    for at in 0..items.len() {
        // All other items stand in their order already.
        if left == 0 {
            return;
        }
        let rest = items.len() - at;
        let chosen = at + (left % rest as u64) as usize;
        items[at..=chosen].rotate_right(1);
        left /= rest as u64;
    }
}
