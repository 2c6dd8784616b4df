// The call on a whole wave sheet as an exported function, for C and for whatever links to it.
//
// It is the function of the same name in `pirozhkan_sheet`, and has no `requires` either.
#![tactic(auto)]

ghost use Rattle.std.specs.Prelude.{◌≡◌, List, ℕ};
ghost use Rattle.wave.specs.Text.{wave_of};
ghost use Rattle.reply.specs.Through.{left};
ghost use Rattle.pirozhkan_sheet.specs.Sheets.{texted};

#[unsafe(no_mangle)]
pub extern "C" fn pirozhkan_wave(sheet: &[u8], out: &mut [u8]) -> u64
    ensures { left {C = List ℕ} result out.new ≡ texted (wave_of sheet.now out.old) }
{
    pirozhkan_sheet::pirozhkan_wave(sheet, out)
}
