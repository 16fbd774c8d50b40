// Prints the occupancy pages of an image: it reads standard input and writes standard output.

#![tactic(auto)]

use answers::Refusal;
use answers::pairs::Said;
use breadcrumb::occupancy;
use printing::PAGE_BYTES;
use reading::fill;
use std::io;
use std::io::{Stdout, Write};

// Images have B ≤ 112 here, 65,024 bytes. An input with a byte more than the largest has a length that no image has.
// A read or a write that fails ends the program with its error.
fn main(rt: HostRuntime) -> io::Result<()> {
    let mut image = [0u8; 65025];
    let n = fill(&mut rt.stdin(), &mut image)?;
    let mut out = [0u8; PAGE_BYTES];
    print_pages(rt.stdout(), &image[..n], &mut out)
}

// Page after page, until one is refused. An image with B = 112 has 38 of them.
fn print_pages(mut output: Stdout, image: &[u8], out: &mut [u8]) -> io::Result<()> {
    for page in 0..38 {
        if let Err(why) = occupancy(image, page, out) {
            return tell(output, why);
        }
        output.write_all(out)?;
    }
    Ok(())
}

// Past the last page there is nothing to tell. Else a line with the number, and for an unsound bucket its table number.
fn tell(output: Stdout, why: Refusal) -> io::Result<()> {
    let number = Said::from(why).number;
    match why {
        Refusal::PastEnd => Ok(()),
        Refusal::Unsound(table) => println!(output; "{number} {table}"),
        _ => println!(output; "{number}"),
    }
}
