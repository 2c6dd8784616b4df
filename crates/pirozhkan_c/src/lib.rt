// The board's calls as exported functions, for C and for whatever links to it.
//
// Each is the function of the same name in `pirozhkan`, and has no `requires` either.
#![tactic(auto)]

ghost use Rattle.std.specs.Prelude.{◌≡◌, List, ℕ, length, ℤ};
ghost use Rattle.board_enter.specs.Enter.{blank};
ghost use Rattle.reply.specs.Through.{left, through, begun, answered, shown};
ghost use Rattle.pirozhkan.specs.Calls.{ranging, listing, closing, resetting, spreading, whether_ready, marking, restoring, keeping, sizing, whether_assigned, assigned_to, whether_inconsistent, whether_changed, bounds_into, values_into, ids_into};
ghost use Rattle.rules.specs.Board.{remove, assign, below, above};
ghost use Rattle.batch_runs.specs.Runs.{form_of, closings_of};
ghost use Rattle.pirozhkan.specs.Batches.{batched_by};

// ---- make

#[unsafe(no_mangle)]
pub extern "C" fn pirozhkan_new(ws: &mut [u64]) -> u64
    ensures { left {C = List ℕ} result ws.new ≡ begun blank ws.old }
{
    pirozhkan::make::pirozhkan_new(ws)
}

#[unsafe(no_mangle)]
pub extern "C" fn pirozhkan_add_variable(ws: &mut [u64], id: u32, min: i32, max: i32) -> u64
    ensures { left {C = List ℕ} result ws.new ≡ through (ranging id min max) ws.old }
{
    pirozhkan::make::pirozhkan_add_variable(ws, id, min, max)
}

#[unsafe(no_mangle)]
pub extern "C" fn pirozhkan_add_variable_with_values(ws: &mut [u64], id: u32, values: &[i32]) -> u64
    ensures { left {C = List ℕ} result ws.new ≡ through (listing id values.now) ws.old }
{
    pirozhkan::make::pirozhkan_add_variable_with_values(ws, id, values)
}

// ---- shut

#[unsafe(no_mangle)]
pub extern "C" fn pirozhkan_remove_value(ws: &mut [u64], id: u32, value: i32) -> u64
    ensures { left {C = List ℕ} result ws.new ≡ through (closing remove id value) ws.old }
{
    pirozhkan::shut::pirozhkan_remove_value(ws, id, value)
}

#[unsafe(no_mangle)]
pub extern "C" fn pirozhkan_assign_variable(ws: &mut [u64], id: u32, value: i32) -> u64
    ensures { left {C = List ℕ} result ws.new ≡ through (closing assign id value) ws.old }
{
    pirozhkan::shut::pirozhkan_assign_variable(ws, id, value)
}

#[unsafe(no_mangle)]
pub extern "C" fn pirozhkan_remove_below(ws: &mut [u64], id: u32, value: i32) -> u64
    ensures { left {C = List ℕ} result ws.new ≡ through (closing below id value) ws.old }
{
    pirozhkan::shut::pirozhkan_remove_below(ws, id, value)
}

#[unsafe(no_mangle)]
pub extern "C" fn pirozhkan_remove_above(ws: &mut [u64], id: u32, value: i32) -> u64
    ensures { left {C = List ℕ} result ws.new ≡ through (closing above id value) ws.old }
{
    pirozhkan::shut::pirozhkan_remove_above(ws, id, value)
}

#[unsafe(no_mangle)]
pub extern "C" fn pirozhkan_reset_changed_flag(ws: &mut [u64]) -> u64
    ensures { left {C = List ℕ} result ws.new ≡ through resetting ws.old }
{
    pirozhkan::shut::pirozhkan_reset_changed_flag(ws)
}

// ---- batches

#[unsafe(no_mangle)]
pub extern "C" fn pirozhkan_batch(ws: &mut [u64], kinds: &[u32], ids: &[u32], values: &[i32]) -> u64
    ensures { left {C = List ℕ} result ws.new ≡ batched_by (form_of kinds.now (length ids.now) (length values.now)) (closings_of kinds.now ids.now values.now) ws.old }
{
    pirozhkan::batches::pirozhkan_batch(ws, kinds, ids, values)
}

// ---- lists

#[unsafe(no_mangle)]
pub extern "C" fn pirozhkan_propagate_alldiff(ws: &mut [u64], list: &[u32]) -> u64
    ensures { left {C = List ℕ} result ws.new ≡ through (spreading list.now) ws.old }
{
    pirozhkan::lists::pirozhkan_propagate_alldiff(ws, list)
}

#[unsafe(no_mangle)]
pub extern "C" fn pirozhkan_ready(ws: &[u64], list: &[u32]) -> u64
    ensures { result ≡ answered (whether_ready list.now) ws.now }
{
    pirozhkan::lists::pirozhkan_ready(ws, list)
}

// ---- trials

#[unsafe(no_mangle)]
pub extern "C" fn pirozhkan_mark(ws: &mut [u64]) -> u64
    ensures { left {C = List ℕ} result ws.new ≡ through marking ws.old }
{
    pirozhkan::trials::pirozhkan_mark(ws)
}

#[unsafe(no_mangle)]
pub extern "C" fn pirozhkan_restore(ws: &mut [u64]) -> u64
    ensures { left {C = List ℕ} result ws.new ≡ through restoring ws.old }
{
    pirozhkan::trials::pirozhkan_restore(ws)
}

#[unsafe(no_mangle)]
pub extern "C" fn pirozhkan_keep(ws: &mut [u64]) -> u64
    ensures { left {C = List ℕ} result ws.new ≡ through keeping ws.old }
{
    pirozhkan::trials::pirozhkan_keep(ws)
}

// ---- questions

#[unsafe(no_mangle)]
pub extern "C" fn pirozhkan_domain_size(ws: &[u64], id: u32) -> u64
    ensures { result ≡ answered (sizing id) ws.now }
{
    pirozhkan::questions::pirozhkan_domain_size(ws, id)
}

#[unsafe(no_mangle)]
pub extern "C" fn pirozhkan_is_assigned(ws: &[u64], id: u32) -> u64
    ensures { result ≡ answered (whether_assigned id) ws.now }
{
    pirozhkan::questions::pirozhkan_is_assigned(ws, id)
}

#[unsafe(no_mangle)]
pub extern "C" fn pirozhkan_assigned_value(ws: &[u64], id: u32) -> u64
    ensures { result ≡ answered (assigned_to id) ws.now }
{
    pirozhkan::questions::pirozhkan_assigned_value(ws, id)
}

#[unsafe(no_mangle)]
pub extern "C" fn pirozhkan_is_inconsistent(ws: &[u64], id: u32) -> u64
    ensures { result ≡ answered (whether_inconsistent id) ws.now }
{
    pirozhkan::questions::pirozhkan_is_inconsistent(ws, id)
}

#[unsafe(no_mangle)]
pub extern "C" fn pirozhkan_domains_changed(ws: &[u64]) -> u64
    ensures { result ≡ answered whether_changed ws.now }
{
    pirozhkan::questions::pirozhkan_domains_changed(ws)
}

#[unsafe(no_mangle)]
pub extern "C" fn pirozhkan_get_bounds(ws: &[u64], id: u32, cells: &mut [i32]) -> u64
    ensures { left {C = List ℤ} result cells.new ≡ shown (bounds_into id cells.old) ws.now cells.old }
{
    pirozhkan::questions::pirozhkan_get_bounds(ws, id, cells)
}

#[unsafe(no_mangle)]
pub extern "C" fn pirozhkan_get_domain_values(ws: &[u64], id: u32, cells: &mut [i32]) -> u64
    ensures { left {C = List ℤ} result cells.new ≡ shown (values_into id cells.old) ws.now cells.old }
{
    pirozhkan::questions::pirozhkan_get_domain_values(ws, id, cells)
}

#[unsafe(no_mangle)]
pub extern "C" fn pirozhkan_variables(ws: &[u64], cells: &mut [u32]) -> u64
    ensures { left {C = List ℕ} result cells.new ≡ shown (ids_into cells.old) ws.now cells.old }
{
    pirozhkan::questions::pirozhkan_variables(ws, cells)
}
