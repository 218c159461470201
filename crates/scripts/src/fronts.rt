// What stands in a row of words, one thing behind the other, each of some words.
ghost use Rattle.std.specs.Prelude.{◌≡◌, ℕ, ◌<◌, ◌≤◌, List, Option, length, drop, IfOk};
ghost use Rattle.scripts.specs.Words.{Word, Reads, ReadsAs};
ghost use Rattle.scripts.specs.Fronts.{all as all_said};

use crate::not_done::NotDone;
use std::alloc::Global;

// What some words say that stand in front of others.
pub(crate) trait Front: Copy {
    // What words begin with, and how many words that is, if they say one.
    ghost said: { List Word → Option (Self × ℕ) };

    fn front(words: &[&str]) -> Result<(Self, usize), NotDone>
        ensures reads { Reads (said words.now) result }
        ensures within { IfOk result (λ p. (0 < p.1) × (p.1 ≤ length words.now)) };
}

// The words behind so many.
fn skip<'a, 'b>(words: &'a [&'b str], n: usize) -> &'a [&'b str]
    requires { n ≤ length words.now }
    ensures { result.now ≡ drop n words.now }
{
    &words[n..]
}

// All that words say, one thing behind the other.
#[tactic(auto, using(crate::proofs::Rows::one_more, crate::proofs::Rows::stops, crate::proofs::Rows::at_end))]
pub(crate) fn all<T: Front>(alloc: Global, words: &[&str]) -> Result<Vec<T>, NotDone>
    ensures { ReadsAs (λ v. v.items) (all_said T.said words.now) result }
{
    let mut all = Vec::new(alloc);
    let mut rest = words;
    while !rest.is_empty() {
        let (front, taken) = T::front(rest)?;
        all.push(front)?;
        rest = skip(rest, taken);
    }
    Ok(all)
}
