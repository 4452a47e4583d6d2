//! The configuration under which the mutations are loaded.
ghost use Rattle.std.specs.Prelude.{◌≡◌, IfOk};
ghost use Rattle.tablet_gen.specs.Configuration.{generator_settings};

use cell_key::NoMemory;
use iter_config::{Config, ConfigError, read_config};
use std::alloc::Global;

/// The configuration, as a document.
const DOCUMENT: &[u8] = br#"[[iterator]]
name = "sum"
priority = 10
kind = "sum"
columns = ["n"]
encoding = "string"
scopes = ["scan", "minc", "majc"]

[[iterator]]
name = "vers"
priority = 20
kind = "versions"
max = 2
scopes = ["scan", "minc", "majc"]
"#;

/// The configuration. It takes memory.
pub fn configuration(alloc: Global) -> Result<Config, NoMemory>
    ensures { IfOk result (λ config. config ≡ generator_settings) }
{
    match read_config(alloc, DOCUMENT) {
        Ok(config) => Ok(config),
        Err(ConfigError::NoMemory) => Err(NoMemory),
        Err(ConfigError::Refused { .. }) => unreachable!(),
    }
}
