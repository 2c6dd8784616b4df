// The library's call on a whole wave sheet: pirozhkan_wave, which `pirozhkan_sheet_c` exports. No state is lent.
#![tactic(auto)]

ghost use Rattle.std.specs.Prelude.{◌≡◌, List, ℕ};
ghost use Rattle.wave.specs.Text.{wave_of};
ghost use Rattle.reply.specs.Through.{left};
ghost use Rattle.pirozhkan_sheet.specs.Sheets.{texted};

pub fn pirozhkan_wave(sheet: &[u8], out: &mut [u8]) -> u64
    ensures { left {C = List ℕ} result out.new ≡ texted (wave_of sheet.now out.old) }
{
    reply::counted(wave::wave(sheet, out))
}
