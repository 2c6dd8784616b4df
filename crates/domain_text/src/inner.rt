// What is printed of a value that is known by its offset.
ghost use Rattle.std.specs.Prelude.{◌≡◌, ◌<◌, pos, ◌+ℤ◌};
ghost use Rattle.mask.specs.Val.{offsets};

// The value at an offset: in an i64 it always fits.
pub fn value(min: i32, k: usize) -> i64
    requires { k < offsets }
    ensures { result ≡ min +ℤ pos k }
{
    min as i64 + k as i64
}
