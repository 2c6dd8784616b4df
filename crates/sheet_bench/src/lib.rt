// The reading of a sheet, for the comparison's `speed`; `sheet_bench_c` exports it. What comes out is made of rows that the caller picks, so
// that none can be left out.
#![tactic(auto)]

use closing::Kind;

fn sign(x: i32) -> u64 {
    u64::from(x < 0)
}

fn kind(k: Kind) -> u64 {
    match k {
        Kind::Remove => 1,
        Kind::Assign => 2,
        Kind::Below => 3,
        Kind::Above => 4,
    }
}

pub fn bench_read(text: &[u8], pick: usize) -> u64 {
    let Ok((p, e)) = sheet::read_sheet(text) else {
        return 0;
    };
    let d = p.destinations.rows[pick % 64];
    let c = p.closings.rows[pick % 256];
    let l = p.lists.rows[pick % 16];
    let id = u64::from(p.ids[pick % 1024]);
    let rows = u64::from(d.id.0)
        ^ sign(d.min.0)
        ^ sign(d.max.0)
        ^ kind(c.kind)
        ^ u64::from(c.id.0)
        ^ sign(c.value.0);
    let counts = p.destinations.count as u64 ^ p.closings.count as u64 ^ p.lists.count as u64;
    rows ^ counts ^ l.start as u64 ^ l.len as u64 ^ id ^ e as u64
}
