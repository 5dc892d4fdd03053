use tinyjambu::Fault;

// What a call on a roll answers.
#[derive(Clone, Copy)]
pub enum Answer {
    Appended(Result<u32, Fault>),
    Read(Result<usize, Fault>),
    Length(Result<usize, Fault>),
    Number(u32),
}
