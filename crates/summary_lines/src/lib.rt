// The lines of a summary (def_dump/specs/Summaries.antt). The text goes through a lent buffer, as print's functions do.
#![tactic(auto)]

ghost use Rattle.def_text.specs.Buffer.{Added};
ghost use Rattle.def_dump.specs.Summaries.{span_text, count_text, counts_text, jitter_text};
ghost use Rattle.def_dump.specs.Summaries.{four_text, hops_text, summary_parts};
ghost use Rattle.def_dump.specs.Summaries.{summary_lines};

use def_wire::{ByteSpread, HopsOr, Spread, Summary};

// `ssrc S begin B end E`.
fn span(buf: &mut [u8], at: usize, s: Summary) -> usize
    ensures { Added buf.old at (span_text s) buf.new result }
{
    let n = print::labelled(buf, at, b"ssrc", s.ssrc as u64);
    let m = print::labelled(buf, n, b" begin", s.begin as u64);
    print::labelled(buf, m, b" end", s.end as u64)
}

// A number, or ` absent`.
fn count(buf: &mut [u8], at: usize, c: Option<u32>) -> usize
    ensures { Added buf.old at (count_text c) buf.new result }
{
    match c {
        Some(n) => print::number(buf, at, n as u64),
        None => print::text(buf, at, b" absent"),
    }
}

// `lost N duplicates N`.
fn counts(buf: &mut [u8], at: usize, s: Summary) -> usize
    ensures { Added buf.old at (counts_text s) buf.new result }
{
    let lost = s.lost;
    let duplicates = s.duplicates;
    let n = print::text(buf, at, b"lost");
    let m = count(buf, n, lost);
    let o = print::text(buf, m, b" duplicates");
    count(buf, o, duplicates)
}

// `jitter MIN MAX MEAN DEVIATION`, or `jitter absent`.
fn jitter(buf: &mut [u8], at: usize, j: Option<Spread>) -> usize
    ensures { Added buf.old at (jitter_text j) buf.new result }
{
    match j {
        Some(x) => {
            let n = print::text(buf, at, b"jitter");
            let a = print::number(buf, n, x.least as u64);
            let b = print::number(buf, a, x.most as u64);
            let c = print::number(buf, b, x.mean as u64);
            print::number(buf, c, x.deviation as u64)
        }
        None => print::text(buf, at, b"jitter absent"),
    }
}

// Four numbers.
fn four(buf: &mut [u8], at: usize, x: ByteSpread) -> usize
    ensures { Added buf.old at (four_text x) buf.new result }
{
    let a = print::number(buf, at, x.least as u64);
    let b = print::number(buf, a, x.most as u64);
    let c = print::number(buf, b, x.mean as u64);
    print::number(buf, c, x.deviation as u64)
}

// `ttl MIN MAX MEAN DEVIATION`, `hops ..`, `ttl absent`, `toh 3 absent`.
fn hops(buf: &mut [u8], at: usize, h: HopsOr) -> usize
    ensures { Added buf.old at (hops_text h) buf.new result }
{
    match h {
        HopsOr::NoHops => print::text(buf, at, b"ttl absent"),
        HopsOr::Ttl(x) => {
            let n = print::text(buf, at, b"ttl");
            four(buf, n, x)
        }
        HopsOr::HopLimit(x) => {
            let n = print::text(buf, at, b"hops");
            four(buf, n, x)
        }
        HopsOr::Unknown => print::text(buf, at, b"toh 3 absent"),
    }
}

// The four texts, with something between them.
pub fn summary_parts(buf: &mut [u8], at: usize, between: &[u8], s: Summary) -> usize
    ensures { Added buf.old at (summary_parts between.now s) buf.new result }
{
    let j = s.jitter;
    let h = s.hops;
    let a = span(buf, at, s);
    let b = print::text(buf, a, between);
    let c = counts(buf, b, s);
    let d = print::text(buf, c, between);
    let e = jitter(buf, d, j);
    let f = print::text(buf, e, between);
    hops(buf, f, h)
}

// Four lines, as the dump has them.
pub fn summary_lines(buf: &mut [u8], at: usize, s: Summary) -> usize
    ensures { Added buf.old at (summary_lines s) buf.new result }
{
    let n = summary_parts(buf, at, b"\n", s);
    print::line_end(buf, n)
}
