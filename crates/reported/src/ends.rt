// What keeping the two ends of a range comes to. `seen` is 0 before the first was seen.
ghost use Rattle.std.specs.Prelude.{◌≡◌};
ghost use Rattle.text.specs.Res.{pick};
ghost use Rattle.reported.specs.Flat.{new_end_of};

// What is seen first is an end, and later what is beyond the one so far.
pub(crate) fn new_end(seen: u64, beyond: bool) -> bool
    ensures { result ≡ new_end_of seen beyond }
{
    if seen == 0 {
        return true;
    }
    beyond
}

// The new value, or the one before.
#[tactic(auto, unfolding(text::specs::Res::pick))]
pub(crate) fn newer<T: Copy>(new: bool, value: T, before: T) -> T
    ensures { result ≡ pick new value before }
{
    if new { value } else { before }
}
