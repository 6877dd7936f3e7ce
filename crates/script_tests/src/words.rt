// Words of the command line.
use exact_plane::Memory;
use geo_io::{MemorySink, MemorySource};
use geo_run::{RunFault, geo_main};
use std::alloc::{AllocError, Global};
use std::test::Fail;

// The words of the command line of one run, and after a `;` what it writes; where that is nothing, the words are refused.
#[rattlefmt::skip]
const WORDS: &str = "\
--comb|3;comb,3,8,4
--comb|2047;comb,2047,4096,2048
--comb=1;comb,1,4,2
--comb|+3;comb,3,8,4
--comb|0000003;comb,3,8,4
--comb|0;
--comb|2048;
--comb|99999999999999999999;
--comb|18446744073709551619;
--comb|-1;
--comb|+;
--comb|;
--comb|3 ;
--comb=;
--comb=3=4;
--comb;
--comb|3|--comb|4;
--comb|--comb=3;
--comb|3|x;
--com|3;
--help;
-h;
--version;
x;
--;
--comb|3|--;
";

// Nothing is read.
#[test]
fn words(rt: HostRuntime) -> Result<(), Fail> {
    assert!(rt; WORDS.split_inclusive('\n').count() == 26);
    for row in WORDS.split_inclusive('\n') {
        assert!(rt; is_taken_so(rt.alloc(), row)?, "{row}");
    }
    Ok(())
}

// Whether the run with the words of the row ends as the row says.
fn is_taken_so(alloc: Global, row: &str) -> Result<bool, Memory> {
    let (words, line) = row.split_once(";").unwrap_or((row, ""));
    let words = strings(alloc, words)?;
    let mut source = MemorySource::new(Vec::from_slice(alloc, b"frob\n")?, 8, Vec::new(alloc));
    let mut sink = MemorySink::with_room(alloc, 64, 8, Vec::new(alloc))?;
    let answer = geo_main(alloc, &words, &mut source, &mut sink);
    let (ends, output) = match line {
        "\n" => (Err(RunFault::Usage), ""),
        _ => (Ok(()), line),
    };
    Ok(answer == ends && source.left().len() == 5 && sink.taken() == output.as_bytes())
}

fn strings(alloc: Global, words: &str) -> Result<Vec<String>, AllocError> {
    let mut strings = Vec::new(alloc);
    for word in words.split('|') {
        strings.push(String::from_str(alloc, word)?)?;
    }
    Ok(strings)
}
