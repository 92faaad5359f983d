ghost use Rattle.std.specs.Prelude.{◌≡◌, option_copied};
ghost use Rattle.signer.specs.FromOne.{is_within, get, nth, set_nth};

// Whether k is a number from 1 to the limit.
#[tactic(auto, unfolding(crate::specs::FromOne::is_within))]
pub fn within(k: u8, limit: u8) -> bool
    ensures { result ≡ is_within limit k }
{
    (1..=limit).contains(&k)
}

// Element k of a list, lent; nothing where there is no element k.
#[tactic(auto, unfolding(crate::specs::FromOne::get))]
pub fn get<T>(list: &[T], k: u8) -> Option<&T>
    ensures { option_copied result ≡ get list.now k }
{
    // index MAX, that of element 0, is no list's
    list.get((k as usize).wrapping_sub(1))
}

// Element k of a list, or `none` where there is no element k.
#[tactic(auto, using(crate::proofs::FromOneLaws::nth_get))]
pub fn nth<T: Copy>(list: &[T], k: u8, none: T) -> T
    ensures { result ≡ nth list.now k none }
{
    get(list, k).copied().unwrap_or(none)
}

// Puts this in as element k; a list without an element k stays as it is. By index: tried by `get_mut`, after which the check
// knows nothing of the other elements, so the proof did not close.
#[tactic(auto, unfolding(crate::specs::FromOne::set_nth))]
pub fn set_nth<T: Copy>(list: &mut [T], k: u8, element: T)
    ensures { list.new ≡ set_nth list.old k element }
{
    if k > 0 && k as usize <= list.len() {
        list[k as usize - 1] = element;
    }
}
