// The 16550 serial port.
ghost use Rattle.serial.specs.Port.{read_of, write_of, input_of};
ghost use Rattle.serial.specs.Calls.{Makes, Reads, Writes, TakesInput, HasSize, HasRoom, IsHigh};
ghost use Rattle.play.specs.Play.{Plays};
ghost use Rattle.serial_saved.specs.Calls.{Saves, Restores};
ghost use Rattle.serial_form.specs.Form.{read_form};
ghost use Rattle.serial_form.specs.Calls.{Encodes, Decodes};

use serial::memory::{Pos, Regs, Ring};

pub fn serialpost5_serial_init(regs: &mut Regs, pos: &mut Pos, size: u32) -> u32
    ensures { Makes size regs.old pos.old regs.new pos.new result }
{
    serial::init(regs, pos, size)
}

pub fn serialpost5_serial_read(regs: &mut Regs, pos: &mut Pos, ring: &Ring, offset: u8) -> u32
    ensures { Reads (λ p. read_of p offset)
        regs.old pos.old ring.now regs.new pos.new result }
{
    serial::read(regs, pos, ring, offset)
}

pub fn serialpost5_serial_write(
    regs: &mut Regs,
    pos: &mut Pos,
    ring: &mut Ring,
    offset: u8,
    value: u8,
) -> u32
    ensures { Writes (λ p. write_of p offset value)
        regs.old pos.old ring.old regs.new pos.new ring.new result }
{
    serial::write(regs, pos, ring, offset, value)
}

pub fn serialpost5_serial_input(
    regs: &mut Regs,
    pos: &mut Pos,
    ring: &mut Ring,
    input: &[u8],
) -> u32
    ensures { TakesInput (λ p. input_of p input.now)
        regs.old pos.old ring.old regs.new pos.new ring.new result }
{
    serial::input(regs, pos, ring, input)
}

pub fn serialpost5_serial_size(regs: &Regs) -> u32
    ensures { HasSize regs.now result }
{
    serial::size(regs)
}

pub fn serialpost5_serial_room(regs: &Regs, pos: &Pos) -> u32
    ensures { HasRoom regs.now pos.now result }
{
    serial::room(regs, pos)
}

pub fn serialpost5_serial_line(regs: &Regs, pos: &Pos) -> bool
    ensures { IsHigh regs.now pos.now result }
{
    serial::line(regs, pos)
}

pub fn serialpost5_serial_play(
    regs: &mut Regs,
    pos: &mut Pos,
    ring: &mut Ring,
    ops: &[u8],
    inputs: &[u8],
    answers: &mut [u32],
) -> bool
    ensures { Plays regs.old pos.old ring.old ops.now inputs.now answers.old
        regs.new pos.new ring.new answers.new result }
{
    play::play(regs, pos, ring, ops, inputs, answers)
}

pub fn serialpost5_serial_save(
    regs: &Regs,
    pos: &Pos,
    ring: &Ring,
    saved: &mut Regs,
    waiting: &mut Ring,
) -> u32
    ensures { Saves regs.now pos.now ring.now waiting.old
        saved.new waiting.new result }
{
    serial_saved::save(regs, pos, ring, saved, waiting)
}

pub fn serialpost5_serial_restore(
    regs: &mut Regs,
    pos: &mut Pos,
    ring: &mut Ring,
    saved: &Regs,
    waiting: &[u8],
) -> u32
    ensures { Restores
        regs.old pos.old ring.old saved.now waiting.now
        regs.new pos.new ring.new result }
{
    serial_saved::restore(regs, pos, ring, saved, waiting)
}

pub fn serialpost5_serial_encode(saved: &Regs, waiting: &[u8], form: &mut [u8]) -> u32
    ensures { Encodes saved.now waiting.now form.old form.new result }
{
    serial_form::encode(saved, waiting, form)
}

pub fn serialpost5_serial_decode(form: &[u8], saved: &mut Regs, waiting: &mut Ring) -> u32
    ensures { Decodes (read_form form.now)
        saved.old waiting.old saved.new waiting.new result }
{
    serial_form::decode(form, saved, waiting)
}
