ghost use Rattle.std.specs.Prelude.{◌+◌, ◌/◌, ◌≤◌, ◌≡◌, [], ◌∷◌, length, decimal};
ghost use Rattle.delivery.specs.Limits.{limits};
ghost use Rattle.schedule.specs.Prints.{event_line, board_line, refused_line, longest_print};
ghost use Rattle.schedule.specs.Private.{last_digit, digit_if, Puts};

use crate::counter::Counter;
use crate::fault::Fault;
use bench::Shown;
use vote::Numbered;

// A text that is put into a buffer from its start on, as far as the buffer goes, and how long it is so far. So in an empty
// buffer it tells its length.
#[derive(Drop)]
pub(crate) struct Text<'a> {
    pub(crate) out: &'a mut [u8],
    pub(crate) length: usize,
}

// Each of these puts some bytes after those that are there. `Puts` speaks of the buffer and the length, and not of a `Text`,
// since words in another crate are put in the same way: a record for each would be no plainer.
impl Text<'_> {
    // One byte.
    #[inline(always)]
    pub(crate) fn put(&mut self, byte: u8)
        requires { self.old.length + 1 ≤ longest_print limits }
        ensures { Puts (byte ∷ []) self.old.out self.old.length self.new.out self.new.length }
    {
        if self.length < self.out.len() {
            self.out[self.length] = byte;
        }
        self.length += 1;
    }

    // The last digit of a number, of which a tenth is known; none of 0.
    #[inline(always)]
    #[tactic(auto, unfolding(crate::specs::Private::last_digit))]
    fn digit(&mut self, m: u16, tenth: u16)
        requires tenth { tenth ≡ m / 10 }
        requires room { self.old.length + length (last_digit m) ≤ longest_print limits }
        ensures { Puts (last_digit m) self.old.out self.old.length self.new.out self.new.length }
    {
        if m > 0 {
            self.put(b'0' + (m - 10 * tenth) as u8);
        }
    }

    // A number in decimal. Digit by digit, and not by the kit's `itoa`: that makes a text of its own in a loop, which would
    // be copied in another. Each quotient serves two digits, so there is one division for a digit.
    #[inline(always)]
    #[tactic(auto, using(crate::proofs::PrintLaws::number_digits))]
    pub(crate) fn number(&mut self, m: u16)
        requires { self.old.length + length (decimal m) ≤ longest_print limits }
        ensures { Puts (decimal m) self.old.out self.old.length self.new.out self.new.length }
    {
        // most numbers here have one digit, and need no quotient, or two
        if m < 10 {
            self.put(b'0' + m as u8);
            return;
        }
        let tens = m / 10;
        if tens < 10 {
            self.put(b'0' + tens as u8);
            self.put(b'0' + (m - 10 * tens) as u8);
            return;
        }
        let hundreds = tens / 10;
        let thousands = hundreds / 10;
        let rest = thousands / 10;
        self.digit(rest, 0);
        self.digit(thousands, rest);
        self.digit(hundreds, thousands);
        self.digit(tens, hundreds);
        self.put(b'0' + (m - 10 * tens) as u8);
    }

    // A digit, if it is one to be shown.
    #[inline(always)]
    #[tactic(auto, unfolding(crate::specs::Private::digit_if))]
    fn digit_if(&mut self, shown: bool, digit: u8)
        requires small { digit ≤ 9 }
        requires room { self.old.length + length (digit_if shown digit) ≤ longest_print limits }
        ensures { Puts (digit_if shown digit) self.old.out self.old.length self.new.out self.new.length }
    {
        if shown {
            self.put(b'0' + digit);
        }
    }

    // A counter's number in decimal, with no division, since its digits are there. A digit is shown if it or one before it
    // is not 0.
    #[inline(always)]
    #[tactic(auto, using(crate::proofs::PrintLaws::counter_digits))]
    fn counted(&mut self, counter: &Counter)
        requires { self.old.length + length (decimal counter.now) ≤ longest_print limits }
        ensures { Puts (decimal counter.now) self.old.out self.old.length self.new.out self.new.length }
    {
        let hundreds = counter.thousands + counter.hundreds;
        let tens = hundreds + counter.tens;
        self.digit_if(counter.thousands > 0, counter.thousands);
        self.digit_if(hundreds > 0, counter.hundreds);
        self.digit_if(tens > 0, counter.tens);
        self.put(b'0' + counter.ones);
    }

    // A text as it stands.
    pub(crate) fn word(&mut self, text: &[u8])
        requires { self.old.length + length text.now ≤ longest_print limits }
        ensures { Puts text.now self.old.out self.old.length self.new.out self.new.length }
    {
        for byte in text {
            self.put(*byte);
        }
    }

    // An event's line, with its number.
    #[tactic(auto, unfolding(crate::specs::Prints::event_line))]
    pub(crate) fn event_line(&mut self, k: &Counter, answer: u8)
        requires { self.old.length + length (event_line k.now answer) ≤ longest_print limits }
        ensures { Puts (event_line k.now answer) self.old.out self.old.length self.new.out self.new.length }
    {
        self.counted(k);
        self.put(b' ');
        self.number(answer as u16);
        self.put(b'\n');
    }

    // A board's line.
    #[tactic(auto, unfolding(crate::specs::Prints::board_line))]
    pub(crate) fn board_line(&mut self, k: u8, shown: Shown)
        requires { self.old.length + length (board_line k shown) ≤ longest_print limits }
        ensures { Puts (board_line k shown) self.old.out self.old.length self.new.out self.new.length }
    {
        self.number(k as u16);
        self.put(b' ');
        self.put(shown.letter.byte());
        self.put(b' ');
        self.number(shown.round.0 as u16);
        self.put(b' ');
        self.number(shown.value);
        self.put(b'\n');
    }

    // The line of a refused file.
    #[tactic(auto, unfolding(crate::specs::Prints::refused_line))]
    pub(crate) fn refused_line(&mut self, fault: Fault)
        requires { self.old.length + length (refused_line fault) ≤ longest_print limits }
        ensures { Puts (refused_line fault) self.old.out self.old.length self.new.out self.new.length }
    {
        self.word(b"refused");
        self.put(b' ');
        self.number(fault.number() as u16);
        self.put(b'\n');
    }
}
