// What a call that may change a set hands back, for those that are here and in `sparse_pairs`.
ghost use Rattle.std.specs.Prelude.{◌≡◌};
ghost use Rattle.std.specs.declared.result.Result.TheVariants.{Ok, Err};

use super::Handed;
use rules::Refusal;
use sparse_inner::Sparse;

// The set as it came, and why the call was refused.
pub fn refused<A>(set: Sparse, why: Refusal) -> Handed<A>
    ensures set { result.set ≡ set }
    ensures answer { result.answer ≡ Err why }
{
    Handed {
        set,
        answer: Err(why),
    }
}

// The set as the call leaves it, and what it answers.
pub fn done<A>(set: Sparse, answer: A) -> Handed<A>
    ensures set { result.set ≡ set }
    ensures answer { result.answer ≡ Ok answer }
{
    Handed {
        set,
        answer: Ok(answer),
    }
}
