// What a log is set up with, as one hash, so that a state is not used with other settings.
ghost use Rattle.std.specs.Prelude.{◌≡◌, [], ◌∷◌, ◌++◌};
ghost use Rattle.sha256.specs.Hash.{sha256};
ghost use Rattle.state_files.specs.Server.{setup_hash};

// The hash of N, the own number, the log's name and the users' public keys.
pub fn hash(servers: u8, own: u8, log: [u8; 16], users: &[u8]) -> [u8; 32]
    ensures { result ≡ setup_hash servers own log users.now }
{
    let numbers = [servers, own];
    sha256::hash3(&numbers, &log, users)
}
