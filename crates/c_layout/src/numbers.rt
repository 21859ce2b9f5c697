// Numbers of 32 bits as the narrower ones of the crates below. One that does not fit is taken for the greatest, which 22 refuses too.
ghost use Rattle.std.specs.Prelude.{◌≡◌};
ghost use Rattle.c_layout.specs.Inner.{config_of};

use tree::setup::Config;

// What a server or a user is told of its log, as the crates below take it. No N and no server's number is 255, and no user's 65,535.
pub fn config(servers: u32, own: u32, log: &[u8; 16]) -> Config
    ensures { result ≡ config_of servers own log.now }
{
    Config {
        servers: servers.min(255) as u8,
        own: own.min(65535) as u16,
        log: *log,
    }
}
