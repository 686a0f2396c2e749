// The text of a line: the lists of a case.
ghost use Rattle.std.specs.Prelude.{◌≤◌, length, IfSome};

// What is left of a line. It says nothing any more once something was not found in it.
#[derive(Drop)]
pub struct Text<'a> {
    pub rest: &'a [u8],
}

// An item of a list: a number of 32 bits, or the one that stands so many places before. A number below 0 is the 32 bits of its complement.
#[derive(Clone, Copy)]
enum Item {
    Number(u32),
    Back(usize),
}

// Puts an item at all places from one to another of a table, if it does not reach back too far.
fn store(table: &mut [u32], from: usize, to: usize, item: Item) -> Option<()>
    requires order { from ≤ to }
    requires room { to ≤ length table.old }
{
    match item {
        Item::Number(x) => table[from..to].fill(x),
        Item::Back(back) => {
            if from < back {
                return None;
            }
            for i in from..to {
                table[i] = table[i - back];
            }
        }
    }
    Some(())
}

impl Text<'_> {
    // Whether this byte comes next, and then steps over it.
    fn passes(&mut self, byte: u8) -> bool {
        match self.rest.split_first() {
            Some((first, rest)) if *first == byte => {
                self.rest = rest;
                true
            }
            _ => false,
        }
    }

    // The decimal number that comes next: it has a digit, and is below 2^32.
    fn decimal(&mut self) -> Option<u32> {
        let mut value = None;
        let mut rest = self.rest;
        while let Some((first, behind)) = rest.split_first() {
            let Some(digit) = char::from(*first).to_digit(10) else {
                break;
            };
            let longer = u64::from(value.unwrap_or(0u32)) * 10 + u64::from(digit);
            value = Some(u32::try_from(longer).ok()?);
            rest = behind;
        }
        self.rest = rest;
        value
    }

    // The item that comes next. Places back are at least one, and a magnitude below 0 is 1 to 2^31.
    fn item(&mut self) -> Option<Item> {
        if self.passes(b'~') {
            let back = self.decimal().filter(|x| *x != 0)?;
            return Some(Item::Back(back as usize));
        }
        if self.passes(b'-') {
            let size = self.decimal().filter(|x| (1..=1 << 31).contains(x))?;
            return Some(Item::Number(size.wrapping_neg()));
        }
        Some(Item::Number(self.decimal()?))
    }

    // How many times an item stands.
    fn times(&mut self) -> Option<usize> {
        if self.passes(b'*') {
            return Some(self.decimal()? as usize);
        }
        Some(1)
    }

    // The list that comes next, put into the first entries of a table, and its length. At the end of the line it is empty.
    pub fn list(&mut self, table: &mut [u32]) -> Option<usize>
        ensures { IfSome result (λ n. n ≤ length table.old) }
    {
        if self.rest.is_empty() {
            return Some(0);
        }
        if !self.passes(b' ') {
            return None;
        }
        let count = self.decimal()? as usize;
        if table.len() < count {
            return None;
        }
        // Kept: a while, since an item fills as many places as it says.
        let mut done = 0;
        while done < count {
            if !self.passes(b' ') {
                return None;
            }
            let item = self.item()?;
            let times = self.times()?;
            if times == 0 || count - done < times {
                return None;
            }
            store(table, done, done + times, item)?;
            done += times;
        }
        Some(count)
    }
}
