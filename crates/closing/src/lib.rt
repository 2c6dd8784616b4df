// A closing as a record: its kind, the destination, and the chute or threshold. Boards close by it, batches are runs of it, and sheets list it.
//
// kind_for
#![tactic(auto)]

ghost use Rattle.std.specs.Prelude.{◌≡◌};
ghost use Rattle.closing.specs.Kinds.{kind_for};

use rules::{Value, Variable};

// 01's four kinds of closing.
#[derive(Clone, Copy)]
pub enum Kind {
    Remove,
    Assign,
    Below,
    Above,
}

#[derive(Clone, Copy)]
pub struct Closing {
    pub kind: Kind,
    pub id: Variable,
    pub value: Value,
}

// The kind that a sheet, or a batch in numbers, names by n: 1 to 4, which its caller has seen to. Any other number is taken for 4.
#[tactic(auto, unfolding(crate::specs::Kinds::kind_for))]
pub fn kind_for(n: u32) -> Kind
    ensures { result ≡ kind_for n }
{
    match n {
        1 => Kind::Remove,
        2 => Kind::Assign,
        3 => Kind::Below,
        _ => Kind::Above,
    }
}
