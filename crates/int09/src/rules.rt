//! The nine rules, in their order. Each function treats a byte that no rule before its own has treated.

ghost use Rattle.std.specs.Prelude.{◌≡◌, ◌<◌, ◌≤◌, Some, true, drop};

use super::bios::Bios;
use super::flags::{Downs, Shifts};
use super::keys::{keypad_digit, lock_key, shift_key};
use super::said::{nothing, one, two};
use arrayvec::ArrayVec;
use bitflags::Flags;
use pc_tables::{Item, WordRow, letter_on, word_row};

impl Bios {
    ghost use Rattle.bits.specs.Bits.{has_bit};
    ghost use Rattle.pc_tables.specs.Words.{words_at};
    ghost use Rattle.int09.specs.Bits.{ctrl, alt, num, pause};
    ghost use Rattle.int09.specs.Bios.{State, start, enters, enters_if};
    ghost use Rattle.int09.specs.Keys.{lock_bit, shift_down, reverses};
    ghost use Rattle.int09.specs.Rules.{alt_broken, locks, nine_rules, first_that_fits, fed};

    /// Treats a byte by the first rule that fits: rule 1, and those after it.
    #[tactic(auto, unfolding(crate::specs::Rules::fed, crate::specs::Rules::marks))]
    pub(crate) fn treat(&mut self, byte: u8) -> ArrayVec<Item, 2>
        ensures after { self.new ≡ (fed byte self.old).after }
        ensures items { result.items ≡ (fed byte self.old).items }
    {
        match byte {
            0xfa => {
                self.ack = true;
                nothing()
            }
            0xfe => {
                self.resend = true;
                nothing()
            }
            0xff => two(Item::Overrun, Item::Beep),
            0x00..=0x7f => self.make(byte),
            _ => self.release(byte),
        }
    }

    /// A make: rule 2, and those after it.
    #[tactic(auto, unfolding(crate::specs::Rules::on_sysreq, crate::specs::Rules::on_shift_key, crate::specs::Rules::on_lock_key))]
    fn make(&mut self, code: u8) -> ArrayVec<Item, 2>
        requires { code < 0x80 }
        ensures after { self.new ≡ (first_that_fits (drop 1 nine_rules) code self.old).after }
        ensures items { result.items ≡ (first_that_fits (drop 1 nine_rules) code self.old).items }
    {
        if code == 0x54 {
            return self.make_sysreq();
        }
        if let Some(bit) = shift_key(code) {
            self.shifts.insert(bit);
            return nothing();
        }
        if let Some((state, down)) = lock_key(code) {
            return self.make_lock(code, state, down);
        }
        self.key(code)
    }

    /// Rule 2: a make of SysReq.
    #[tactic(auto, unfolding(crate::specs::Rules::on_sysreq))]
    fn make_sysreq(&mut self) -> ArrayVec<Item, 2>
        ensures after { self.new ≡ (first_that_fits (drop 1 nine_rules) 0x54 self.old).after }
        ensures items { result.items ≡ (first_that_fits (drop 1 nine_rules) 0x54 self.old).items }
    {
        if self.downs.contains(Downs::SYSREQ) {
            return nothing();
        }
        self.downs.insert(Downs::SYSREQ);
        one(Item::SysMake)
    }

    /// Rule 4: a make of a lock key or of Insert.
    #[tactic(auto, unfolding(crate::specs::Rules::on_lock_key, crate::specs::Rules::lock_made))]
    fn make_lock(&mut self, code: u8, state: Shifts, down: Downs) -> ArrayVec<Item, 2>
        requires make { code < 0x80 }
        requires key { lock_bit code ≡ Some down.0 }
        requires both { state.0 ≡ down.0 }
        ensures after { self.new ≡ (first_that_fits (drop 3 nine_rules) code self.old).after }
        ensures items { result.items ≡ (first_that_fits (drop 3 nine_rules) code self.old).items }
    {
        let insert = code == 0x52;
        if self.ctrl() || insert && self.alt() {
            return self.key(code);
        }
        if insert && self.num() != self.shift() {
            return self.enter(0x5230);
        }
        if self.downs.contains(down) {
            return nothing();
        }
        self.lock(code, state, down)
    }

    /// Rule 4: the key was up.
    #[tactic(auto, unfolding(crate::specs::Rules::locks))]
    fn lock(&mut self, code: u8, state: Shifts, down: Downs) -> ArrayVec<Item, 2>
        requires { state.0 ≡ down.0 }
        ensures after { self.new ≡ (locks code down.0 self.old).after }
        ensures items { result.items ≡ (locks code down.0 self.old).items }
    {
        self.downs.insert(down);
        self.shifts.toggle(state);
        if code == 0x52 {
            self.enter(0x5200)
        } else {
            nothing()
        }
    }

    /// A make: rule 5, and those after it.
    #[tactic(auto, unfolding(crate::specs::Rules::without_words, crate::specs::Rules::in_pause))]
    fn key(&mut self, code: u8) -> ArrayVec<Item, 2>
        requires { code < 0x80 }
        ensures after { self.new ≡ (first_that_fits (drop 4 nine_rules) code self.old).after }
        ensures items { result.items ≡ (first_that_fits (drop 4 nine_rules) code self.old).items }
    {
        let Some(row) = word_row(code) else {
            return nothing();
        };
        if self.downs.contains(Downs::PAUSE) {
            self.key_in_pause(code)
        } else {
            self.key_of(code, row)
        }
    }

    /// Rule 6.
    #[tactic(auto, unfolding(crate::specs::Rules::in_pause))]
    fn key_in_pause(&mut self, code: u8) -> ArrayVec<Item, 2>
        requires { has_bit pause self.old.downs ≡ true }
        ensures after { self.new ≡ (first_that_fits (drop 5 nine_rules) code self.old).after }
        ensures items { result.items ≡ (first_that_fits (drop 5 nine_rules) code self.old).items }
    {
        if code == 0x45 {
            return nothing();
        }
        self.downs.remove(Downs::PAUSE);
        one(Item::Resume)
    }

    /// Rules 7, 8 and 9.
    #[tactic(auto, unfolding(crate::specs::Rules::with_alt, crate::specs::Rules::with_ctrl))]
    fn key_of(&mut self, code: u8, row: WordRow) -> ArrayVec<Item, 2>
        requires { words_at code ≡ Some row }
        ensures after { self.new ≡ (first_that_fits (drop 6 nine_rules) code self.old).after }
        ensures items { result.items ≡ (first_that_fits (drop 6 nine_rules) code self.old).items }
    {
        if self.alt() {
            self.key_with_alt(code, row)
        } else if self.ctrl() {
            self.key_with_ctrl(code, row)
        } else {
            self.key_alone(code, row)
        }
    }

    /// Rule 7.
    #[tactic(auto, unfolding(crate::specs::Rules::with_alt, crate::specs::Rules::alt_typed))]
    fn key_with_alt(&mut self, code: u8, row: WordRow) -> ArrayVec<Item, 2>
        requires row { words_at code ≡ Some row }
        requires alt { has_bit alt self.old.shifts ≡ true }
        ensures after { self.new ≡ (first_that_fits (drop 6 nine_rules) code self.old).after }
        ensures items { result.items ≡ (first_that_fits (drop 6 nine_rules) code self.old).items }
    {
        if self.ctrl() && code == 0x53 {
            self.reset();
            return one(Item::Boot);
        }
        if code == 0x39 {
            return self.enter(0x3920);
        }
        if let Some(digit) = keypad_digit(code) {
            self.number = ((u16::from(self.number) * 10 + u16::from(digit)) % 256) as u8;
            return nothing();
        }
        self.number = 0;
        self.enter_if(row.alt)
    }

    /// Rule 8.
    #[tactic(auto, unfolding(crate::specs::Rules::with_ctrl))]
    fn key_with_ctrl(&mut self, code: u8, row: WordRow) -> ArrayVec<Item, 2>
        requires row { words_at code ≡ Some row }
        requires ctrl { has_bit ctrl self.old.shifts ≡ true }
        ensures after { self.new ≡ (first_that_fits (drop 7 nine_rules) code self.old).after }
        ensures items { result.items ≡ (first_that_fits (drop 7 nine_rules) code self.old).items }
    {
        match code {
            0x46 => {
                self.words.clear();
                self.words.push_back(0x0000);
                two(Item::Broke, Item::Word(0x0000))
            }
            0x45 => {
                self.downs.insert(Downs::PAUSE);
                one(Item::Pause)
            }
            _ => self.enter_if(row.ctrl),
        }
    }

    /// Rule 9.
    #[tactic(auto, unfolding(crate::specs::Rules::alone))]
    fn key_alone(&mut self, code: u8, row: WordRow) -> ArrayVec<Item, 2>
        requires { words_at code ≡ Some row }
        ensures after { self.new ≡ (first_that_fits (drop 8 nine_rules) code self.old).after }
        ensures items { result.items ≡ (first_that_fits (drop 8 nine_rules) code self.old).items }
    {
        if self.shift() == self.reverses(code) {
            return self.enter_if(row.base);
        }
        if code == 0x37 {
            return one(Item::Print);
        }
        self.enter_if(row.shift)
    }

    /// A break: rule 2, and those after it.
    #[tactic(auto, unfolding(crate::specs::Rules::on_sysreq, crate::specs::Rules::on_shift_key, crate::specs::Rules::on_lock_key, crate::specs::Rules::without_words))]
    fn release(&mut self, byte: u8) -> ArrayVec<Item, 2>
        requires { 0x80 ≤ byte }
        ensures after { self.new ≡ (first_that_fits (drop 1 nine_rules) byte self.old).after }
        ensures items { result.items ≡ (first_that_fits (drop 1 nine_rules) byte self.old).items }
    {
        let code = byte - 0x80;
        if code == 0x54 {
            self.downs.remove(Downs::SYSREQ);
            return one(Item::SysBreak);
        }
        if code == 0x38 {
            return self.release_alt();
        }
        if let Some(bit) = shift_key(code) {
            self.shifts.remove(bit);
        } else if let Some((_, down)) = lock_key(code) {
            self.downs.remove(down);
        }
        nothing()
    }

    /// Rule 3: a break of Alt.
    #[tactic(auto, unfolding(crate::specs::Rules::alt_broken))]
    fn release_alt(&mut self) -> ArrayVec<Item, 2>
        ensures after { self.new ≡ (alt_broken self.old).after }
        ensures items { result.items ≡ (alt_broken self.old).items }
    {
        self.shifts.remove(Shifts::ALT);
        let number = self.number;
        if number == 0 {
            return nothing();
        }
        self.number = 0;
        self.enter(u16::from(number))
    }

    /// The word enters the buffer and is said; the full buffer beeps.
    fn enter(&mut self, word: u16) -> ArrayVec<Item, 2>
        ensures after { self.new ≡ (enters word self.old).after }
        ensures items { result.items ≡ (enters word self.old).items }
    {
        match self.words.try_push_back(word) {
            Ok(()) => one(Item::Word(word)),
            Err(_) => one(Item::Beep),
        }
    }

    /// The same, if there is a word.
    fn enter_if(&mut self, word: Option<u16>) -> ArrayVec<Item, 2>
        ensures after { self.new ≡ (enters_if word self.old).after }
        ensures items { result.items ≡ (enters_if word self.old).items }
    {
        match word {
            Some(word) => self.enter(word),
            None => nothing(),
        }
    }

    /// INT 09h as it starts.
    fn reset(&mut self)
        ensures { self.new ≡ start }
    {
        self.shifts = Shifts(0);
        self.downs = Downs(0);
        self.number = 0;
        self.ack = false;
        self.resend = false;
        self.words.clear();
    }

    /// Whether Ctrl is down.
    fn ctrl(&self) -> bool
        ensures { result ≡ has_bit ctrl self.now.shifts }
    {
        self.shifts.contains(Shifts::CTRL)
    }

    /// Whether Alt is down.
    fn alt(&self) -> bool
        ensures { result ≡ has_bit alt self.now.shifts }
    {
        self.shifts.contains(Shifts::ALT)
    }

    /// Whether Num Lock is on.
    fn num(&self) -> bool
        ensures { result ≡ has_bit num self.now.shifts }
    {
        self.shifts.contains(Shifts::NUM)
    }

    /// Whether a Shift key is down.
    fn shift(&self) -> bool
        ensures { result ≡ shift_down self.now }
    {
        self.shifts.contains(Shifts::RIGHT_SHIFT) || self.shifts.contains(Shifts::LEFT_SHIFT)
    }

    /// Whether Caps or Num reverses the columns for the key.
    #[tactic(auto, unfolding(crate::specs::Keys::reverses))]
    fn reverses(&self, code: u8) -> bool
        ensures { result ≡ reverses code self.now }
    {
        letter_on(code).is_some() && self.shifts.contains(Shifts::CAPS)
            || code >= 0x47 && code <= 0x53 && self.num()
    }
}
