// The bit domain's calls as exported functions, for C and for whatever links to it.
//
// Each is the function of the same name in `pirozhkan_bit`, and has no `requires` either.
#![tactic(auto)]

ghost use Rattle.std.specs.Prelude.{◌≡◌, true, false, List, ℕ, ℤ};
ghost use Rattle.domain_values.specs.Calls.{from_values_of};
ghost use Rattle.reply.specs.Through.{left};
ghost use Rattle.pirozhkan_bit.specs.Lent.{begun, through, answered, shown};
ghost use Rattle.pirozhkan_bit.specs.Calls.{between, inserting, removing, emptying, closing, whether_held, sizing, fixed_at, smallest, largest, values_into, text_into};
ghost use Rattle.rules.specs.Board.{assign, below, above};

// ---- make

#[unsafe(no_mangle)]
pub extern "C" fn pirozhkan_bit_new(ws: &mut [u64], min: i32, max: i32) -> u64
    ensures { left {C = List ℕ} result ws.new ≡ begun (between true min max) ws.old }
{
    pirozhkan_bit::make::pirozhkan_bit_new(ws, min, max)
}

#[unsafe(no_mangle)]
pub extern "C" fn pirozhkan_bit_new_empty(ws: &mut [u64], min: i32, max: i32) -> u64
    ensures { left {C = List ℕ} result ws.new ≡ begun (between false min max) ws.old }
{
    pirozhkan_bit::make::pirozhkan_bit_new_empty(ws, min, max)
}

#[unsafe(no_mangle)]
pub extern "C" fn pirozhkan_bit_new_from_values(ws: &mut [u64], values: &[i32]) -> u64
    ensures { left {C = List ℕ} result ws.new ≡ begun (from_values_of values.now) ws.old }
{
    pirozhkan_bit::make::pirozhkan_bit_new_from_values(ws, values)
}

// ---- change

#[unsafe(no_mangle)]
pub extern "C" fn pirozhkan_bit_insert(ws: &mut [u64], value: i32) -> u64
    ensures { left {C = List ℕ} result ws.new ≡ through (inserting value) ws.old }
{
    pirozhkan_bit::change::pirozhkan_bit_insert(ws, value)
}

#[unsafe(no_mangle)]
pub extern "C" fn pirozhkan_bit_remove(ws: &mut [u64], value: i32) -> u64
    ensures { left {C = List ℕ} result ws.new ≡ through (removing value) ws.old }
{
    pirozhkan_bit::change::pirozhkan_bit_remove(ws, value)
}

#[unsafe(no_mangle)]
pub extern "C" fn pirozhkan_bit_remove_all(ws: &mut [u64]) -> u64
    ensures { left {C = List ℕ} result ws.new ≡ through emptying ws.old }
{
    pirozhkan_bit::change::pirozhkan_bit_remove_all(ws)
}

#[unsafe(no_mangle)]
pub extern "C" fn pirozhkan_bit_remove_all_but(ws: &mut [u64], value: i32) -> u64
    ensures { left {C = List ℕ} result ws.new ≡ through (closing assign value) ws.old }
{
    pirozhkan_bit::change::pirozhkan_bit_remove_all_but(ws, value)
}

#[unsafe(no_mangle)]
pub extern "C" fn pirozhkan_bit_remove_below(ws: &mut [u64], value: i32) -> u64
    ensures { left {C = List ℕ} result ws.new ≡ through (closing below value) ws.old }
{
    pirozhkan_bit::change::pirozhkan_bit_remove_below(ws, value)
}

#[unsafe(no_mangle)]
pub extern "C" fn pirozhkan_bit_remove_above(ws: &mut [u64], value: i32) -> u64
    ensures { left {C = List ℕ} result ws.new ≡ through (closing above value) ws.old }
{
    pirozhkan_bit::change::pirozhkan_bit_remove_above(ws, value)
}

// ---- ask

#[unsafe(no_mangle)]
pub extern "C" fn pirozhkan_bit_contains(ws: &[u64], value: i32) -> u64
    ensures { result ≡ answered (whether_held value) ws.now }
{
    pirozhkan_bit::ask::pirozhkan_bit_contains(ws, value)
}

#[unsafe(no_mangle)]
pub extern "C" fn pirozhkan_bit_size(ws: &[u64]) -> u64
    ensures { result ≡ answered sizing ws.now }
{
    pirozhkan_bit::ask::pirozhkan_bit_size(ws)
}

#[unsafe(no_mangle)]
pub extern "C" fn pirozhkan_bit_fixed_value(ws: &[u64]) -> u64
    ensures { result ≡ answered fixed_at ws.now }
{
    pirozhkan_bit::ask::pirozhkan_bit_fixed_value(ws)
}

#[unsafe(no_mangle)]
pub extern "C" fn pirozhkan_bit_min(ws: &[u64]) -> u64
    ensures { result ≡ answered smallest ws.now }
{
    pirozhkan_bit::ask::pirozhkan_bit_min(ws)
}

#[unsafe(no_mangle)]
pub extern "C" fn pirozhkan_bit_max(ws: &[u64]) -> u64
    ensures { result ≡ answered largest ws.now }
{
    pirozhkan_bit::ask::pirozhkan_bit_max(ws)
}

#[unsafe(no_mangle)]
pub extern "C" fn pirozhkan_bit_values(ws: &[u64], cells: &mut [i32]) -> u64
    ensures { left {C = List ℤ} result cells.new ≡ shown (values_into cells.old) ws.now cells.old }
{
    pirozhkan_bit::ask::pirozhkan_bit_values(ws, cells)
}

#[unsafe(no_mangle)]
pub extern "C" fn pirozhkan_bit_text(ws: &[u64], cells: &mut [u8]) -> u64
    ensures { left {C = List ℕ} result cells.new ≡ shown (text_into cells.old) ws.now cells.old }
{
    pirozhkan_bit::ask::pirozhkan_bit_text(ws, cells)
}
