// Questions: the words are only read. Values and text go into cells that the caller lends.
ghost use Rattle.std.specs.Prelude.{◌≡◌, List, ℕ, ℤ};
ghost use Rattle.reply.specs.Through.{left};
ghost use Rattle.pirozhkan_bit.specs.Lent.{answered, shown};
ghost use Rattle.pirozhkan_bit.specs.Calls.{whether_held, sizing, fixed_at, smallest, largest, values_into, text_into};

use super::inner;
use rules::{Refusal, Value};

pub fn pirozhkan_bit_contains(ws: &[u64], value: i32) -> u64
    ensures { result ≡ answered (whether_held value) ws.now }
{
    inner::ask(ws, |d| reply::told(domain::contains(d, Value(value))))
}

pub fn pirozhkan_bit_size(ws: &[u64]) -> u64
    ensures { result ≡ answered sizing ws.now }
{
    inner::ask(ws, |d| reply::counted(domain::size(d)))
}

pub fn pirozhkan_bit_fixed_value(ws: &[u64]) -> u64
    ensures { result ≡ answered fixed_at ws.now }
{
    inner::ask(ws, |d| reply::found(domain::fixed_value(d)))
}

pub fn pirozhkan_bit_min(ws: &[u64]) -> u64
    ensures { result ≡ answered smallest ws.now }
{
    inner::ask(ws, |d| reply::found(domain::min(d)))
}

pub fn pirozhkan_bit_max(ws: &[u64]) -> u64
    ensures { result ≡ answered largest ws.now }
{
    inner::ask(ws, |d| reply::found(domain::max(d)))
}

#[tactic(auto, unfolding(reply::specs::Lent::shown, reply::specs::Told::coded))]
pub fn pirozhkan_bit_values(ws: &[u64], cells: &mut [i32]) -> u64
    ensures { left {C = List ℤ} result cells.new ≡ shown (values_into cells.old) ws.now cells.old }
{
    if ws.len() < inner::WORDS {
        return reply::refusal(Refusal::NoRoom);
    }
    reply::counted(domain_values::to_vec(inner::read(ws), cells))
}

#[tactic(auto, unfolding(reply::specs::Lent::shown, reply::specs::Told::coded))]
pub fn pirozhkan_bit_text(ws: &[u64], cells: &mut [u8]) -> u64
    ensures { left {C = List ℕ} result cells.new ≡ shown (text_into cells.old) ws.now cells.old }
{
    if ws.len() < inner::WORDS {
        return reply::refusal(Refusal::NoRoom);
    }
    reply::counted(domain_text::write_text(inner::read(ws), cells))
}
