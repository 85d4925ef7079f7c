// Prints rows 12 and 13 of paper 01, 'Reel of examples': the row, a space, sixteen lower-case hexadecimal digits.
#![tactic(auto)]

use std::io;

// A failed write ends the program with its error.
fn main(rt: HostRuntime) -> io::Result<()> {
    let row12 = gather::gather(64, 0x0FFF0FFF0FFF0FFF, 0x0123045607890ABC);
    let row13 = gather::group(64, 0xFFFFFFFFFFFFFFFF, 5);
    println!(rt; "12 {:016x}", row12.word)?;
    println!(rt; "13 {:016x}", row13.word)
}
