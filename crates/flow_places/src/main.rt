// Which buckets a rule chooses for the keys of the standard input, and how they spread.
#![tactic(auto)]

use flows::Flow;
use lines::Lines;
use names::Name;
use placing::{Outcome, Placer};
use settings::{KindName, Setting, read_setting};
use spread::Summary;
use std::alloc::Global;
use std::io;
use std::io::{BufRead, BufReader, BufWriter, Write};
use text::Spelled;

// Reads lines until one is a setting.
fn first_setting<F: BufRead + Drop, W: Write>(
    lines: &mut Lines<F>,
    out: &mut W,
) -> io::Result<Option<Setting>> {
    for line in lines {
        match read_setting(line?.get()) {
            Ok(found) => {
                out.write_all(b"ok\n")?;
                return Ok(Some(found));
            }
            Err(refusal) => writeln!(out, "{refusal}")?,
        }
    }
    Ok(None)
}

// How many lines were answered with a place, and how many were refused.
#[derive(Clone, Copy, Debug, Default, PartialEq, Eq)]
struct Counts {
    placed: u64,
    refused: u64,
}

impl Counts {
    // One line more.
    fn count(&mut self, outcome: Outcome) {
        match outcome {
            Outcome::Placed => self.placed = self.placed.saturating_add(1),
            Outcome::Refused => self.refused = self.refused.saturating_add(1),
        }
    }
}

// What was done, in numbers.
fn report<W: Write>(counts: Counts, summary: Summary, out: &mut W) -> io::Result<()> {
    let Counts { placed, refused } = counts;
    let Summary {
        buckets,
        idle,
        busiest,
        keys,
        mean,
    } = summary;
    let whole = mean / 100;
    let hundredths = mean % 100;
    writeln!(out, "placed {placed} keys, refused {refused} lines")?;
    writeln!(out, "{buckets} buckets, {idle} of them chosen by no key")?;
    writeln!(out, "most chosen: bucket {busiest}, by {keys} keys")?;
    writeln!(out, "mean: {whole}.{hundredths:02} keys a bucket")
}

// Answers all lines that are left, and reports.
fn place_lines<K: Spelled, F: BufRead + Drop, W: Write>(
    heap: Global,
    setting: &Setting,
    lines: &mut Lines<F>,
    out: &mut W,
) -> io::Result<()> {
    let mut placer = Placer::new::<K>(&setting.rule, setting.seed);
    let mut counts = Counts::default();
    let mut text = Vec::new(heap);
    for read in lines {
        // by reference, for a line that `?` hands on is copied once more
        let Ok(line) = &read else {
            return read.map(|_| ());
        };
        text.clear();
        counts.count(placer.answer::<K>(line.get(), &mut text)?);
        out.write_all(text.as_slice())?;
    }
    report(counts, placer.spread.summary(), out)
}

fn main(rt: HostRuntime) -> io::Result<()> {
    let heap = rt.alloc();
    let mut lines = Lines::of(BufReader::new(heap, rt.stdin())?);
    let mut out = BufWriter::new(heap, rt.stdout())?;
    match first_setting(&mut lines, &mut out)? {
        // the kind is known only here, so each has its own call
        Some(setting) => match setting.kind {
            KindName::Flow => place_lines::<Flow, _, _>(heap, &setting, &mut lines, &mut out)?,
            KindName::Name => place_lines::<Name, _, _>(heap, &setting, &mut lines, &mut out)?,
        },
        None => out.write_all(b"no rule was given, so no key was placed\n")?,
    }
    out.flush()
}
