// Each call once, with its answer.

mod many;
mod records;
mod refusals;
mod row;
mod scripts;
mod sessions;

// An L of area 12.
const L: &[u8] = b"polygon,0,0,4,0,4,2,2,2,2,4,0,4\n";
