// Which interface this is.
ghost use Rattle.std.specs.Prelude.{◌≡◌};
ghost use Rattle.serialpost.specs.Version.{version};

#[unsafe(no_mangle)]
pub extern "C" fn serialpost5_version() -> u32
    ensures { result ≡ version }
{
    serialpost::version::serialpost5_version()
}
