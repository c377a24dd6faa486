// The members of a table that are in use.
ghost use Rattle.std.specs.Prelude.{◌≡◌, take};

// The first `count`, or all of them where it says more.
pub fn in_use<T>(list: &[T], count: usize) -> &[T]
    ensures { result.now ≡ take count list.now }
{
    if list.len() <= count {
        return list;
    }
    &list[..count]
}
