// The fields of IPv4 text, read in one pass. A state is the number that the fields with a dot after them write, how many they are, the number
// of the field after them, and whether that has begun.
//   run_over(e, i)        == the pass from i on, up to a byte that is neither digit nor dot
//   ended_address(state)  == the address that a pass over a whole text makes
ghost use Rattle.std.specs.Prelude.{◌≡◌, false, ◌<◌, ◌≤◌, length, drop};
ghost use Rattle.address.specs.Fields.{ended_address, step_of, run_from};

// What one byte does: the pass fails, stops before it, or goes on in another state.
#[derive(Clone, Copy)]
pub enum Step {
    Nothing,
    Stop,
    Go(u32, u32, u32, bool),
}

// The byte b, after k fields that write n, and of the next, where it has begun, v.
fn step_over(n: u32, k: u32, v: u32, begun: bool, b: u8) -> Step
    requires n_bound { n < 16777216 }
    requires v_bound { v ≤ 255 }
    requires k_bound { k ≤ 3 }
    ensures { result ≡ step_of n k v begun b }
{
    if b == b'.' {
        if begun & (k < 3) {
            return Step::Go(n * 256 + v, k + 1, 0, false);
        }
        return Step::Nothing;
    }
    if b < b'0' {
        return Step::Stop;
    }
    if b'9' < b {
        return Step::Stop;
    }
    if begun & (v == 0) {
        return Step::Nothing;
    }
    let u = v * 10 + (b - b'0') as u32;
    if 255 < u {
        return Step::Nothing;
    }
    Step::Go(n, k, u, true)
}

// A pass over fields: it failed, or came to a place, with the state there.
#[derive(Clone, Copy)]
pub enum Run {
    Failed,
    At(usize, u32, u32, u32, bool),
}

// The pass over the fields from i on.
pub fn run_over(e: &[u8], i: usize) -> Run
    requires { i ≤ length e.now }
    ensures { result ≡ run_from i 0 0 0 false (drop i e.now) }
{
    let mut n: u32 = 0;
    let mut k: u32 = 0;
    let mut v: u32 = 0;
    let mut begun = false;
    for j in i..e.len() {
        let s = step_over(n, k, v, begun, e[j]);
        match s {
            Step::Nothing => {
                return Run::Failed;
            }
            Step::Stop => {
                return Run::At(j, n, k, v, begun);
            }
            Step::Go(m, l, u, x) => {
                n = m;
                k = l;
                v = u;
                begun = x;
            }
        }
    }
    Run::At(e.len(), n, k, v, begun)
}

// The address that a pass over a whole text makes: three fields with a dot after them, and one more.
pub fn ended_address(n: u32, k: u32, v: u32, begun: bool) -> Option<u32>
    requires n_bound { n < 16777216 }
    requires v_bound { v ≤ 255 }
    ensures { result ≡ ended_address n k v begun }
{
    if begun & (k == 3) {
        return Some(n * 256 + v);
    }
    None
}
