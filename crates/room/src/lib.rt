// Bytes put into a lent room one after another. Once a byte finds no room nothing more is stored: the sheet is longer than the room,
// and whoever writes may stop there.
#![tactic(auto)]

ghost use Rattle.std.specs.Prelude.{◌≤◌, ◌<◌, ◌-◌, ◌≡◌, ◌++◌, length, take, replicate, set};
ghost use Rattle.room.specs.Room.{filling, started, begun, put_one, puts};

// A byte found no room.
#[derive(Clone, Copy, Debug, PartialEq, Eq)]
pub struct Full;

// A room, and where the next byte goes.
#[derive(Drop)]
pub struct Sink<'a> {
    room: &'a mut [u8],
    at: usize,
}

impl<'a> Sink<'a> {
    // From the start of a room.
    pub fn new(room: &'a mut [u8]) -> Sink<'a>
        ensures same_reference { result.room.ghost_name ≡ room.entry.ghost_name }
        ensures start { begun result ≡ started room.old }
    {
        Sink { room, at: 0 }
    }

    // How many bytes stand there.
    pub fn length(&self) -> usize
        ensures { result ≡ self.now.at }
    {
        self.at
    }

    // One byte.
    pub fn put(&mut self, b: u8) -> Result<(), Full>
        ensures same_reference { self.new.room.ghost_name ≡ self.old.room.ghost_name }
        ensures filled { filling self.new result ≡ put_one (begun self.old) b }
    {
        let Sink { room, at } = self;
        if room.len() <= *at {
            return Err(Full);
        }
        store(room, *at, b);
        *at += 1;
        Ok(())
    }

    // Some bytes.
    pub fn put_all(&mut self, bytes: &[u8]) -> Result<(), Full>
        ensures same_reference { self.new.room.ghost_name ≡ self.old.room.ghost_name }
        ensures filled { filling self.new result ≡ puts (begun self.old) bytes.now }
    {
        for b in bytes {
            self.put(*b)?;
        }
        Ok(())
    }
}

// A byte in its place: whatever is put is stored here.
fn store(room: &mut [u8], at: usize, b: u8)
    requires { at < length room.old }
    ensures { room.new ≡ set room.old at b }
{
    room[at] = b;
}

// Zeros from a place to the end.
pub fn clear(room: &mut [u8], from: usize)
    requires { from ≤ length room.old }
    ensures { room.new ≡ take from room.old ++ replicate (length room.old - from) 0 }
{
    room[from..].fill(0);
}
