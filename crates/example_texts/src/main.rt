//! Solves each example text that its words name, with the options that lie beside it, and says of each whether what is
//! written is the answer that lies there.
#![tactic(auto)]

ghost use Rattle.std.specs.Prelude.{◌≡◌, ◌↔◌, IsTrue};

use fzn_io::{FileSource, MemSink, read_named};
use gate::NoGate;
use solver_top::{Gates, Status, solve_main};
use std::thread::Threads;

/// The most bytes of an answer that is compared.
const LONGEST_ANSWER: usize = 1_000_000;

fn main(rt: HostRuntime) -> anyhow::Result<()> {
    for (place, name) in std::env::args(&rt)?.enumerate() {
        if place > 0 {
            let verdict = compare(&rt, &rt, name.as_str())?;
            println!(rt; "{name}: {verdict}")?;
        }
    }
    Ok(())
}

/// What became of one text.
fn compare(
    rt: &HostRuntime,
    threads: &(impl Threads + Sync),
    name: &str,
) -> anyhow::Result<&'static str> {
    let alloc = rt.alloc();
    let mut files = FileSource::new(rt);
    let beside = format!(in alloc; "{name}.answer")?;
    let Ok(answer) = read_named(alloc, &mut files, beside.as_str(), LONGEST_ANSWER) else {
        return Ok("its answer can't be read");
    };
    let words = words_of(rt, name)?;
    let mut out = MemSink::new(alloc, LONGEST_ANSWER, Vec::new(alloc));
    let mut err = MemSink::new(alloc, LONGEST_ANSWER, Vec::new(alloc));
    let gates = Gates {
        crew: &NoGate,
        lanes: &NoGate,
    };
    let status = solve_main(
        threads, alloc, &words, &mut files, &mut out, &mut err, &gates,
    );
    Ok(if status != Status::Answered {
        "not answered"
    } else if !is_same(out.bytes(), answer.as_slice()) {
        "another answer"
    } else {
        "its answer"
    })
}

/// Whether what was written is the answer, byte for byte.
fn is_same(written: &[u8], answer: &[u8]) -> bool
    ensures { IsTrue result ↔ written.now ≡ answer.now }
{
    written == answer
}

/// The words for a text: the program's name, those in the file `.words` beside the text, one a line, and the text's file.
fn words_of(rt: &HostRuntime, name: &str) -> anyhow::Result<Vec<String>> {
    let alloc = rt.alloc();
    let mut words = vec![in alloc; String::from_str(alloc, "turbofzn")?]?;
    let mut files = FileSource::new(rt);
    let beside = format!(in alloc; "{name}.words")?;
    if let Ok(bytes) = read_named(alloc, &mut files, beside.as_str(), LONGEST_ANSWER) {
        let text = String::from_utf8(bytes)?;
        for word in text.lines() {
            words.push(String::from_str(alloc, word)?)?;
        }
    }
    words.push(format!(in alloc; "{name}.fzn")?)?;
    Ok(words)
}
