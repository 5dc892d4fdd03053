use anyhow::ensure;
use pocket::Pocket;
use roll::{Answer, Call, hand_in, work};
use std::fmt;

// The name of the pocket.
const NAME: u32 = 7;

// A call and its answer, which print on one line.
#[derive(Clone, Copy)]
struct Line<'a>(Call<'a>, Answer);

impl fmt::Display for Line<'_> {
    fn fmt<W: fmt::Write>(&self, f: &mut fmt::Formatter<W>) -> fmt::Result {
        let title = match self.0 {
            Call::Append(_) => "append",
            Call::Read(_) => "read",
            Call::Length(_) => "length",
            Call::Name => "name",
            Call::Floor => "floor",
            Call::Bound => "bound",
            Call::Space => "space",
            Call::Count => "count",
            Call::Charge(_) => "charge",
        };
        match self.1 {
            Answer::Appended(Ok(entry)) => write!(f, "{title}: entry {entry}"),
            Answer::Read(Ok(len)) | Answer::Length(Ok(len)) => write!(f, "{title}: {len} bytes"),
            Answer::Number(n) => write!(f, "{title}: {n}"),
            Answer::Appended(Err(fault)) | Answer::Read(Err(fault)) | Answer::Length(Err(fault)) =>
                write!(f, "{title}: {fault}"),
        }
    }
}

// Works a list of calls on a pocket, which a sealed revision fills in the end, and prints the answers.
pub(crate) fn work_pocket(rt: &(impl Print + AllocGlobal), sealed: &[u8]) -> anyhow::Result<()> {
    let heap = rt.alloc();
    let calls = [
        Call::Append(sealed),
        Call::Append(&[]),
        Call::Append(sealed),
        Call::Append(sealed),
        Call::Append(sealed),
        Call::Append(sealed),
        Call::Append(sealed),
        Call::Append(sealed),
        Call::Append(sealed),
        Call::Name,
        Call::Floor,
        Call::Bound,
        Call::Count,
        Call::Space,
        Call::Charge(65),
        Call::Length(1),
        Call::Read(8),
        Call::Read(0),
    ];
    let mut pocket = hand_in(Pocket::new(NAME));
    let mut answers = Vec::new(heap);
    let mut texts = Vec::new(heap);
    work(&mut pocket, &calls, &mut answers, &mut texts)?;
    for (call, answer) in calls.iter().zip(&answers) {
        println!(rt; "pocket: {}", Line(*call, *answer))?;
    }
    ensure!(
        texts.as_slice() == sealed,
        "the pocket does not give back the sealed file"
    );
    println!(rt; "pocket: what was read is the sealed file, byte for byte")?;
    Ok(())
}
