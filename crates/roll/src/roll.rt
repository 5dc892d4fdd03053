ghost use Rattle.std.specs.Prelude.{◌≡◌, ℕ, List, length, OnErr};
ghost use Rattle.roll.specs.Roll.{Meaning, Lawful, Put, count, append_answer, append_after, image_after, length_answer, read_answer, read_out};
ghost use Rattle.roll.specs.Floor.{Layer, piled, sealed};
ghost use Rattle.roll.specs.Same.{Same};

use tinyjambu::Fault;

// An append-only list of entries.
pub trait Roll {
    // What the roll means to its caller.
    ghost meaning: { Self → Meaning };

    // What it stands on, and the floors laid on that, the top one first.
    ghost bottom: { Self → Meaning };

    ghost layers: { Self → List Layer };

    // The bytes that its bottom holds, and those after an accepted append of a text.
    ghost image: { Self → List ℕ };

    ghost put: { Self → List ℕ → List ℕ };

    // How its bottom writes a text that it accepts, by no more than the bottom's meaning and bytes.
    ghost writes: { Put };

    // What each roll owes: its meaning is that of its pile, and its bottom and its meaning keep the laws.
    ghost stands: { (s : Self) → meaning s ≡ piled (layers s) (bottom s) };

    ghost lawful: { (s : Self) → Lawful (bottom s) };

    ghost lawful_top: { (s : Self) → Lawful (meaning s) };

    // An append puts what the bottom writes of the text, sealed by each floor from the top down.
    ghost puts: { (s : Self) (t : List ℕ) → put s t ≡ writes (bottom s) (image s) (sealed (layers s) (bottom s) (count (bottom s)) t) };

    // The name, which goes into nonces.
    fn name(&self) -> u32
        ensures { result ≡ (meaning self.now).name };

    // The number of the floor; a bottom has 0.
    fn floor(&self) -> u32
        ensures { result ≡ (meaning self.now).floor };

    // Texts to append must be shorter.
    fn bound(&self) -> u32
        ensures { result ≡ (meaning self.now).bound };

    // What is left to pay for entries with.
    fn space(&self) -> u32
        ensures { result ≡ (meaning self.now).space };

    // How many entries there are.
    fn count(&self) -> u32
        ensures { result ≡ count (meaning self.now) };

    // What an entry of `n` bytes costs.
    fn charge(&self, n: u32) -> u32
        ensures { result ≡ (meaning self.now).charge n };

    // The length of an entry, broken or not, or refusal 8.
    fn length(&self, entry: u32) -> Result<usize, Fault>
        ensures { result ≡ length_answer (meaning self.now) entry };

    // Appends a text, and answers its number, or refuses with 9, 10 or 11 and leaves the whole value as it was.
    fn append(&mut self, text: &[u8]) -> Result<u32, Fault>
        ensures answer { result ≡ append_answer (meaning self.old) text.now }
        ensures after { meaning self.new ≡ append_after (meaning self.old) text.now }
        ensures stored { bottom self.new ≡ append_after (bottom self.old) (sealed (layers self.old) (bottom self.old) (count (bottom self.old)) text.now) }
        ensures floors { layers self.new ≡ layers self.old }
        ensures bytes { image self.new ≡ image_after result (put self.old text.now) (image self.old) }
        ensures refused { OnErr result (self.new ≡ self.old) };

    // Writes the text of an entry at the start of `out`, and answers its length, or refuses with 8, 12 or 13 and leaves only
    // zeros in `out`.
    fn read(&mut self, entry: u32, out: &mut [u8]) -> Result<usize, Fault>
        ensures answer { result ≡ read_answer (meaning self.old) entry (length out.old) }
        ensures out { out.new ≡ read_out (meaning self.old) entry out.old }
        ensures same { Same meaning bottom layers image self.old self.new };
}
