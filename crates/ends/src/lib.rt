// The smallest and the largest of some lent values, of which there is one at least.
#![tactic(auto)]

ghost use Rattle.std.specs.Prelude.{◌≡◌, ◌<◌, length};
ghost use Rattle.ends.specs.Ends.{smallest_of, largest_of};

pub fn smallest(values: &[i32]) -> i32
    requires { 0 < length values.now }
    ensures { result ≡ smallest_of values.now }
{
    let mut best = values[0];
    for x in values {
        best = best.min(*x);
    }
    best
}

pub fn largest(values: &[i32]) -> i32
    requires { 0 < length values.now }
    ensures { result ≡ largest_of values.now }
{
    let mut best = values[0];
    for x in values {
        best = best.max(*x);
    }
    best
}
