ghost use Rattle.std.specs.Prelude.{◌≡◌, ◌<◌, length, slice_index_or};
ghost use Rattle.wire.specs.Gaps.{closed};

/// Takes the item at `place` out of `items`, and closes the gap behind it.
#[tactic(auto, using(crate::proofs::Gaps::moved_up))]
pub fn take_out<T: Copy>(items: &mut [T], place: usize) -> T
    requires { place < length items.old }
    ensures item { result ≡ slice_index_or items.old place result }
    ensures rest { items.new ≡ closed items.old (length items.old) place }
{
    let item = items[place];
    items[place..].copy_within(1.., 0);
    item
}
