// Trials: closings and propagations are tried, and undone or kept.
ghost use Rattle.std.specs.Prelude.{◌≡◌, List, ℕ};
ghost use Rattle.reply.specs.Through.{left, through};
ghost use Rattle.pirozhkan.specs.Calls.{marking, restoring, keeping};

use super::inner;

pub fn pirozhkan_mark(ws: &mut [u64]) -> u64
    ensures { left {C = List ℕ} result ws.new ≡ through marking ws.old }
{
    inner::change(ws, trial::mark)
}

pub fn pirozhkan_restore(ws: &mut [u64]) -> u64
    ensures { left {C = List ℕ} result ws.new ≡ through restoring ws.old }
{
    inner::change(ws, trial::restore)
}

pub fn pirozhkan_keep(ws: &mut [u64]) -> u64
    ensures { left {C = List ℕ} result ws.new ≡ through keeping ws.old }
{
    inner::change(ws, trial::keep)
}
