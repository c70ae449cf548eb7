// The program: runs a call file from standard input, and prints one line for each record.
#![tactic(auto)]

ghost use Rattle.std.specs.Prelude.{◌≤◌, length, IfOk};

use callfile::line::closing_line;
use callfile::running::{ENTRY_PLACES, HUB_PLACES, Index, LINK_PLACES};
use index::book::making::BookSizes;
use index::book::{Book, Entry, RowPlace, SitePlace};
use register::Register;
use register::making::RegisterSizes;
use register::memory::{LinkRecord, SiteChain};
use std::io;
use std::io::{BufReader, BufWriter, Read, Write};
use weight::delay::Delay;

// Reads on until the buffer is full or the input ends, and answers how many bytes came. The library's `read_exact` does not
// say how many came before the end.
fn fill<R: Read>(input: &mut R, buffer: &mut [u8]) -> io::Result<usize>
    ensures { IfOk result (λ n. n ≤ length buffer.old) }
{
    let mut have = 0;
    while have < buffer.len() {
        let got = input.read(&mut buffer[have..])?;
        if got == 0 {
            break;
        }
        have += got;
    }
    Ok(have)
}

fn main(rt: HostRuntime) -> io::Result<()> {
    let mut chains = [SiteChain::default(); 256];
    let mut records = [LinkRecord::<Delay>::default(); 1024];
    let mut site_places = [SitePlace::<Delay>::default(); 256];
    let mut hub_list = [None; 8];
    let mut rows = [RowPlace::<Delay>::default(); 2048];
    let mut entries = [Entry::<Delay>::default(); 2048];
    let mut index = Index {
        register: Register::new(
            RegisterSizes {
                sites: 0,
                places: LINK_PLACES,
            },
            &mut chains,
            &mut records,
        ),
        book: Book::new(
            BookSizes {
                sites: 0,
                hub_places: HUB_PLACES,
                entry_places: ENTRY_PLACES,
            },
            &mut site_places,
            &mut hub_list,
            &mut rows,
            &mut entries,
        ),
    };
    let mut input = BufReader::new(rt.alloc(), rt.stdin())?;
    let mut out = BufWriter::new(rt.alloc(), rt.stdout())?;
    let mut record = [0u8; 16];
    for number in 0..u64::MAX {
        let have = fill(&mut input, &mut record)?;
        if have < 16 {
            if let Some(line) = closing_line(number, have as u32) {
                writeln!(out, "{line}")?;
            }
            break;
        }
        let line = index.run_record(number, &record);
        writeln!(out, "{line}")?;
    }
    out.flush()
}
