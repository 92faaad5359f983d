// Hands a fresh signer the requests below, one after another, and writes what came of each: the
// identifier, the value and the answer. Then it writes what stands under some identifiers: the
// identifier, and the value or `nothing`.
#![tactic(auto)]

use signer::{Identifier, Log, Signer};
use std::io;

fn ask(rt: &HostRuntime, signer: &mut Signer, id: u8, value: u16) -> io::Result<()> {
    let answer = if signer.sign(Identifier(id), value) {
        "signed"
    } else {
        "refused"
    };
    println!(rt; "{id} {value} {answer}")
}

fn show(rt: &HostRuntime, signer: &Signer, id: u8) -> io::Result<()> {
    let entry = signer.entry(Identifier(id));
    if entry == 0 {
        return println!(rt; "{id} nothing");
    }
    let value = Log::value_of(entry);
    println!(rt; "{id} {value}")
}

fn main(rt: HostRuntime) -> io::Result<()> {
    let mut signer = Signer::fresh();
    // document 01, letter d
    ask(&rt, &mut signer, 5, 700)?;
    ask(&rt, &mut signer, 3, 701)?;
    ask(&rt, &mut signer, 5, 702)?;
    ask(&rt, &mut signer, 6, 0)?;
    // numbers that are no identifiers, and the highest two
    ask(&rt, &mut signer, 0, 1)?;
    ask(&rt, &mut signer, Identifier::LAST + 1, 2)?;
    ask(&rt, &mut signer, 255, 3)?;
    ask(&rt, &mut signer, Identifier::LAST - 1, Log::VALUES)?;
    ask(&rt, &mut signer, Identifier::LAST, 0)?;
    ask(&rt, &mut signer, Identifier::LAST, 4)?;
    show(&rt, &signer, 0)?;
    show(&rt, &signer, 3)?;
    show(&rt, &signer, 5)?;
    show(&rt, &signer, 6)?;
    show(&rt, &signer, Identifier::LAST - 1)?;
    show(&rt, &signer, Identifier::LAST)?;
    show(&rt, &signer, Identifier::LAST + 1)
}
