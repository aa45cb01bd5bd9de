// The current device, and the line that is handed to it.
ghost use Rattle.std.specs.Prelude.{◌+◌, ◌≤◌, ◌≡◌, length};
ghost use Rattle.clock.specs.Layout.{Words};
ghost use Rattle.lines.specs.Answering.{First, Hands};
ghost use Rattle.lines.specs.Handing.{size_named, named_by, task_of};

use clock::Clock;
use clock_lines::Clocks;
use pieces::cut::Kind;
use serial_lines::Ports;
use words::out::Out;
use words::pattern::fits;

#[derive(Clone, Copy)]
pub enum Device {
    Reset,
    Clock,
    Serial,
}

// The current device, if one was named, and the devices that have a state, each with the one that was
// saved last.
#[derive(Clone, Copy)]
pub struct Devices {
    pub device: Option<Device>,
    pub clocks: Clocks,
    pub ports: Ports,
}

// What is to be done with a line.
#[derive(Clone, Copy)]
pub enum Task {
    // It is passed over.
    Pass,
    // It is no operation.
    Unknown,
    // It names a device, which is then fresh and the current one: the serial port with its size.
    NamesReset,
    NamesClock,
    NamesSerial(u32),
    // It is for this device, the current one.
    Asks(Device),
}

impl Devices {
    // No device is named, and none saved.
    pub(crate) fn start() -> Self
        ensures { First result }
    {
        Devices {
            device: None,
            clocks: Clocks::start(),
            ports: Ports::start(),
        }
    }

    // Answers a line of this kind.
    pub(crate) fn answer(&mut self, line: &[u8], kind: Kind, out: &mut Out)
        requires { length out.old + 4096 ≤ 65536 }
        ensures { Hands line.now (task_of line.now kind self.old.device) self.old out.old self.new out.new }
    {
        match task_of(line, kind, self.device) {
            Task::Pass => {}
            Task::Unknown => {
                out.unknown();
            }
            Task::NamesReset => {
                self.device = Some(Device::Reset);
                out.put(b"i8042\n");
            }
            Task::NamesClock => {
                self.device = Some(Device::Clock);
                self.clocks.begin();
                eight_words(&self.clocks.clock);
                out.put(b"clock\n");
            }
            Task::NamesSerial(size) => {
                self.device = Some(Device::Serial);
                self.ports.begin(size);
                out.put(line);
                out.put(b"\n");
            }
            Task::Asks(Device::Reset) => {
                reset_lines::answer(line, out);
            }
            Task::Asks(Device::Clock) => {
                let clocks = &mut self.clocks;
                clocks.answer(line, out);
                eight_words(&clocks.clock);
            }
            Task::Asks(Device::Serial) => {
                self.ports.answer(line, out);
            }
        }
    }
}

// That the clock's words have 32 bits, as `ClockSays` has it, by which `one_answer` goes: the check knows it of a
// slice that is read, and not of a field of what a call has changed.
fn eight_words(clock: &Clock)
    ensures { Words clock.now }
{
    let words: &[u32] = clock;
    let _first = words[0];
}

fn task_of(line: &[u8], kind: Kind, device: Option<Device>) -> Task
    ensures { result ≡ task_of line.now kind device }
{
    match kind {
        Kind::Silent => Task::Pass,
        Kind::TooLong => Task::Unknown,
        Kind::Whole => named(line).unwrap_or(device.map_or(Task::Unknown, Task::Asks)),
    }
}

#[tactic(auto, unfolding(crate::specs::Handing::named_by))]
fn named(line: &[u8]) -> Option<Task>
    ensures { result ≡ named_by line.now }
{
    if fits(line, b"i8042") {
        Some(Task::NamesReset)
    } else if fits(line, b"clock") {
        Some(Task::NamesClock)
    } else {
        size_named(line).map(Task::NamesSerial)
    }
}

// How many bytes may wait in the serial port that a line names, if it names one.
#[tactic(auto, unfolding(crate::specs::Handing::size_named))]
fn size_named(line: &[u8]) -> Option<u32>
    ensures { result ≡ size_named line.now }
{
    if fits(line, b"serial") {
        Some(64)
    } else if fits(line, b"serial 16") {
        Some(16)
    } else if fits(line, b"serial 32") {
        Some(32)
    } else if fits(line, b"serial 64") {
        Some(64)
    } else if fits(line, b"serial 128") {
        Some(128)
    } else if fits(line, b"serial 256") {
        Some(256)
    } else if fits(line, b"serial 512") {
        Some(512)
    } else if fits(line, b"serial 1024") {
        Some(1024)
    } else {
        None
    }
}
