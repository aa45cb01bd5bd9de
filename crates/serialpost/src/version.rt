// Which interface this is.
ghost use Rattle.std.specs.Prelude.{◌≡◌};
ghost use Rattle.serialpost.specs.Version.{version};

const VERSION: u32 = 5;

pub fn serialpost5_version() -> u32
    ensures { result ≡ version }
{
    VERSION
}
