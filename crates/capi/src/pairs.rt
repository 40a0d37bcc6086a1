// The call that makes a pair of keys, in the C interface.
ghost use Rattle.std.specs.Prelude.{◌≡◌};
ghost use Rattle.levels.specs.Names.{level_of};
ghost use Rattle.levels.specs.Work.{Cleared};
ghost use Rattle.levels.specs.Rows.{work_of};
ghost use Rattle.keys.specs.Calls.{lengths_of, checked_at, tried_at};
ghost use Rattle.capi.specs.Codes.{number_of, report_after, MadeBy};

use crate::{tell, text};
use levels::guards::{Place, Position, Work};

#[unsafe(no_mangle)]
pub extern "C" fn zq_make(
    level: &[u8],
    code_seed: &[u8],
    mixing_seeds: &[u8],
    decoy_seed: &[u8],
    public_key: &mut [u8],
    secret_key: &mut [u8],
    bytes: &mut [u8],
    places: &mut [Place],
    positions: &mut [Position],
    report: &mut [u64],
) -> u64
    ensures answer { result ≡ number_of (tried_at (checked_at (level_of level.now) (lengths_of code_seed.now mixing_seeds.now decoy_seed.now public_key.old secret_key.old) (work_of bytes.old places.old positions.old)) code_seed.now mixing_seeds.now) }
    ensures report { report.new ≡ report_after report.old (tried_at (checked_at (level_of level.now) (lengths_of code_seed.now mixing_seeds.now decoy_seed.now public_key.old secret_key.old) (work_of bytes.old places.old positions.old)) code_seed.now mixing_seeds.now) }
    ensures gives { MadeBy (tried_at (checked_at (level_of level.now) (lengths_of code_seed.now mixing_seeds.now decoy_seed.now public_key.old secret_key.old) (work_of bytes.old places.old positions.old)) code_seed.now mixing_seeds.now) (level_of level.now) code_seed.now mixing_seeds.now decoy_seed.now public_key.old public_key.new secret_key.old secret_key.new }
    ensures bytes { Cleared bytes.old bytes.new }
    ensures places { Cleared places.old places.new }
    ensures positions { Cleared positions.old positions.new }
{
    let work = Work {
        bytes,
        places,
        positions,
    };
    let answer = keys::make(
        text(level),
        code_seed,
        mixing_seeds,
        decoy_seed,
        public_key,
        secret_key,
        work,
    );
    tell(answer, report)
}
