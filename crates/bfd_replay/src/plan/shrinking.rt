//! Lists that give memory back on their way.
ghost use Rattle.std.specs.Prelude.{◌≡◌, ◌<◌, ◌∷◌, [], IfSome, None, length, reverse};

/// After how many elements a list gives memory back.
const GIVEN_BACK: usize = 4096;

/// Gives the list's spare memory back, now and then.
fn give_back<T: Drop>(left: &mut Vec<T>)
    ensures { left.new.items ≡ left.old.items }
{
    if left.len().is_multiple_of(GIVEN_BACK) {
        left.shrink_to_fit();
    }
}

/// Takes the first element of a list that is kept in reverse. The list gives memory back on its way: what is built from its
/// elements needs it.
pub fn next_of<T: Drop>(left: &mut Vec<T>) -> Option<T>
    ensures first { IfSome result (λ element. reverse left.old.items ≡ element ∷ reverse left.new.items) }
    ensures fewer { IfSome result (λ element. length left.new.items < length left.old.items) }
    ensures none { result ≡ None → reverse left.old.items ≡ [] }
{
    let element = left.pop()?;
    give_back(left);
    Some(element)
}
