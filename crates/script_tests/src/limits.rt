// Long records, the longest polygons of each version, and the most vertices that `pair` and `sights` take.
ghost use Rattle.std.specs.Prelude.{◌≤◌, ◌^◌};

use crate::runs::{is_answered, run};
use exact_plane::Memory;
use geo_text::put_index;
use std::alloc::{AllocError, Global};
use std::process::Abort;
use std::test::Fail;

// A hull and a round of 65 points, and numbers of a thousand digits.
#[test]
fn long_records(rt: HostRuntime) -> Result<(), Fail> {
    let rows = [
        ("inside,", "9", 1000, ",1\n", "polygon,6\nbad,range,1\n"),
        ("inside,", "0", 1000, "1,1\n", "polygon,6\ninside\n"),
        ("hull", ",1,1", 65, "\n", "polygon,6\nbad,many\n"),
        ("round", ",1,1", 65, "\n", "polygon,6\nbad,many\n"),
        ("round", ",1,1", 64, "\n", "polygon,6\nround,0\n"),
        ("pair,", "9", 1000, ",1\n", "polygon,6\nbad,range,1\n"),
    ];
    for (front, part, count, rest, answers) in rows {
        let script = repeated(rt.alloc(), front, part, count, rest)?;
        assert!(rt;
            is_answered(rt.alloc(), script.as_bytes(), answers)?,
            "{front}{part}{rest}"
        );
    }
    Ok(())
}

// A script about an L, with a part of its second record so many times.
fn repeated(
    alloc: Global,
    front: &str,
    part: &str,
    count: u32,
    rest: &str,
) -> Result<String, AllocError> {
    let mut script = String::from_str(alloc, "polygon,0,0,4,0,4,2,2,2,2,4,0,4\n")?;
    script.push_str(front)?;
    for _ in 0..count {
        script.push_str(part)?;
    }
    script.push_str(rest)?;
    Ok(script)
}

// A polygon with 4,098 vertices is too long for version 1, and has too many for a table of all pairs.
#[test]
fn long_polygons(rt: HostRuntime) -> Result<(), Fail> {
    let rows = [
        (
            "geo,2\n",
            "\npair,0,1\npair,-1,0\npair,0,x\nsights\nsights,1\n",
            "geo,2\npolygon,4098\nbad,large\nbad,large\nbad,number,2\nbad,large\nbad,fields\n",
        ),
        ("", "\npair,0,1\n", "bad,many\nbad,no_polygon\n"),
    ];
    for (front, rest, answers) in rows {
        let script = with_comb(rt.alloc(), front, 2048, rest)?;
        assert!(rt; is_answered(rt.alloc(), &script, answers)?, "{front}");
    }
    Ok(())
}

// There is a table of all pairs of 1,024 vertices, and none of 1,025.
#[test]
fn the_limit_of_pairs(rt: HostRuntime) -> Result<(), Fail> {
    let first = "polygon,1024\npath,2,0,0,0,2\npath,2,2044,6,2044,8\nsights,2556\n";
    are_told(
        &rt,
        rt.alloc(),
        "",
        first,
        "polygon,1025\nbad,large\nbad,large\n",
    )?;
    Ok(())
}

// As in version 1.
#[test]
fn the_limit_of_pairs_in_the_second_version(rt: HostRuntime) -> Result<(), Fail> {
    let first = "geo,2\npolygon,1024\npath,2,0,0,0,2\npath,2,2044,6,2044,8\nsights,2556\n";
    are_told(
        &rt,
        rt.alloc(),
        "geo,2\n",
        first,
        "geo,2\npolygon,1025\nbad,large\nbad,large\n",
    )?;
    Ok(())
}

// The first lines of the answers where a comb has 1,024 vertices, and all answers where one more is on its last edge.
fn are_told(
    rt: &impl Abort,
    alloc: Global,
    front: &str,
    first: &str,
    refused: &str,
) -> Result<(), Memory> {
    let script = with_comb(alloc, front, 511, "\npair,0,1023\npair,511,512\nsights\n")?;
    assert!(rt; has_first(alloc, &script, first)?, "1,024 vertices");
    let script = with_comb(alloc, front, 511, ",0,1\npair,0,1\nsights\n")?;
    assert!(rt; is_answered(alloc, &script, refused)?, "1,025 vertices");
    Ok(())
}

// Whether the answers begin with these lines, for which alone the sink has room.
fn has_first(alloc: Global, script: &[u8], first: &str) -> Result<bool, Memory> {
    let ended = run(alloc, script, first.len())?;
    Ok(ended.taken.as_slice() == first.as_bytes())
}

// A script with the polygon of a comb with `k` teeth. Where `rest` begins with no line feed, the polygon goes on with it.
fn with_comb(alloc: Global, front: &str, k: u32, rest: &str) -> Result<Vec<u8>, Memory>
    requires { k ≤ 2 ^ 16 }
{
    let mut script = Vec::from_slice(alloc, front.as_bytes())?;
    put_comb(&mut script, k)?;
    script.extend_from_slice(rest.as_bytes())?;
    Ok(script)
}

// Appends the polygon of a comb with `k` teeth, without a line feed.
fn put_comb(script: &mut Vec<u8>, k: u32) -> Result<(), Memory>
    requires { k ≤ 2 ^ 16 }
{
    script.extend_from_slice(b"polygon")?;
    for i in 0..k + 1 {
        put_vertex(script, 4 * i, 6 * (i % 2))?;
    }
    for j in 0..k + 1 {
        put_vertex(script, 4 * (k - j), 6 * ((k - j) % 2) + 2)?;
    }
    Ok(())
}

fn put_vertex(script: &mut Vec<u8>, x: u32, y: u32) -> Result<(), Memory> {
    put_index(script, x)?;
    put_index(script, y)
}
