// Runs the samples of document 01 that are not among the proved ones, and the ends of N by document 02, and prints what the calls answer.
#![tactic(auto)]

use refusals::Refusal;

// The line of a refusal: its number and its place. A write that fails says nothing, here and below.
fn say_refusal(to: &impl Print, what: &str, why: Refusal) {
    let _ = println!(to;
        "{what} refused {} {}",
        refusals::number(why),
        refusals::place(why)
    );
}

// Encodes an array of N = 2 with `last` at its last place.
fn encode(to: &impl Print, what: &str, n: u32, l: u32, last: i32) {
    let mut coefs = [0i32; 16];
    coefs[15] = last;
    let mut desc = [0u32; 4];
    let mut grand = [0u32; 1];
    let mut marks = [0u8; 16];
    let mut out = [0u8; 128];
    match txp::encode(
        n,
        l,
        &coefs,
        &mut desc,
        &mut grand,
        &mut marks,
        &mut out,
        u32::MAX,
    ) {
        Ok(e) => {
            let _ = println!(to; "{what} planes {}", e.planes);
        }
        Err(why) => say_refusal(to, what, why),
    }
}

// Decodes a file of these sizes with one declared bit, a 0, present.
fn decode(to: &impl Print, what: &str, n: u8, l: u8, p: u8) {
    let file = [0x54u8, 0x58, 0x50, 0, 1, n, l, p, 0, 0, 0, 1, 0];
    let mut values = [0i32; 64];
    let mut precisions = [0u8; 64];
    let mut marks = [0u8; 64];
    match txp::decode(&file, &mut values, &mut precisions, &mut marks) {
        Ok(d) => {
            let _ = println!(to; "{what} used {}", d.used);
        }
        Err(why) => say_refusal(to, what, why),
    }
}

// Reads the header of a file of these sizes.
fn header(to: &impl Print, what: &str, n: u8, l: u8) {
    let file = [0x54u8, 0x58, 0x50, 0, 1, n, l, 1, 0, 0, 0, 0];
    match txp::read_header(&file) {
        Ok(h) => {
            let _ = println!(to; "{what} taken {}", h.n);
        }
        Err(why) => say_refusal(to, what, why),
    }
}

fn main(rt: HostRuntime) {
    decode(&rt, "P=0, one declared bit:", 2, 1, 0);
    decode(&rt, "N=1:", 1, 1, 1);
    decode(&rt, "N=2:", 2, 1, 1);
    header(&rt, "N=10:", 10, 9);
    header(&rt, "N=11:", 11, 10);
    decode(&rt, "L=N-1:", 3, 2, 1);
    decode(&rt, "L=N:", 3, 3, 1);
    encode(&rt, "encoding N=1:", 1, 1, 0);
    encode(&rt, "encoding N=11:", 11, 1, 0);
    encode(&rt, "encoding L=N:", 2, 2, 0);
    encode(&rt, "16777215:", 2, 1, 16777215);
    encode(&rt, "16777216:", 2, 1, 16777216);
    encode(&rt, "-16777215:", 2, 1, -16777215);
    encode(&rt, "-16777216:", 2, 1, -16777216);
    encode(&rt, "-2147483648:", 2, 1, i32::MIN);
}
