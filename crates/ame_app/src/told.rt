//! Failures before a run, as statuses.

ghost use Rattle.std.specs.Prelude.{◌≡◌};
ghost use Rattle.ame_app.specs.Jobs.{words_told, source_told, bytes_told, tokens_told, types_told};
ghost use Rattle.ame_app.specs.declared.status.Status.{Status as Told};

use crate::fault::TextFault;
use crate::status::Status;
use ame_cli::CliFail;
use ame_io::ReadAllFail;
use ame_lex::LexFault;
use ame_parse::ParseFault;
use ame_term::NoMemory;
use ame_types::TypesFail;
use std::alloc::AllocFailed;

impl From<CliFail> for Status {
    ghost from_gives = { λ fail status. status ≡ words_told fail };

    fn from(fail: CliFail) -> Status {
        match fail {
            CliFail::Usage => Status::Usage,
            CliFail::NoMemory => Status::NoMemory,
        }
    }
}

impl From<ReadAllFail> for Status {
    ghost from_gives = { λ fail status. status ≡ source_told fail };

    fn from(fail: ReadAllFail) -> Status {
        match fail {
            ReadAllFail::ReadFault => Status::ReadFault,
            ReadAllFail::TooLong => Status::TooLong,
            ReadAllFail::NoMemory => Status::NoMemory,
        }
    }
}

impl From<LexFault> for Status {
    ghost from_gives = { λ fault status. status ≡ bytes_told fault };

    fn from(fault: LexFault) -> Status {
        match fault {
            LexFault::NoMemory => Status::NoMemory,
            LexFault::BadByte(_) | LexFault::LongNumber(_) => Status::Text(TextFault::Lexical(
                fault,
            )),
        }
    }
}

impl From<ParseFault> for Status {
    ghost from_gives = { λ fault status. status ≡ tokens_told fault };

    fn from(fault: ParseFault) -> Status {
        match fault {
            ParseFault::NoMemory => Status::NoMemory,
            ParseFault::Expected(_, _)
            | ParseFault::UnknownName(_)
            | ParseFault::TooNested(_)
            | ParseFault::Trailing(_) => Status::Text(TextFault::Syntactic(fault)),
        }
    }
}

impl From<TypesFail> for Status {
    ghost from_gives = { λ fail status. status ≡ types_told fail };

    fn from(fail: TypesFail) -> Status {
        match fail {
            TypesFail::Fault(fault) => Status::Types(fault),
            TypesFail::TooLarge | TypesFail::NoMemory => Status::NoMemory,
        }
    }
}

impl From<NoMemory> for Status {
    ghost from_gives = { λ _ status. status ≡ Told.NoMemory };

    fn from(_fail: NoMemory) -> Status {
        Status::NoMemory
    }
}

impl<T: Drop> From<AllocFailed<T>> for Status {
    ghost from_gives = { λ _ status. status ≡ Told.NoMemory };

    fn from(_failed: AllocFailed<T>) -> Status {
        Status::NoMemory
    }
}
