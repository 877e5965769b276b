//! What fits is refused by no rule.

ghost use Rattle.away_top.specs.Fitting.{
  FitCallsAreNotRefused,
  FitCertificatesAreNotRefused,
  FitFunctionsAreNotRefused,
  FitProgramsAreNotRefused,
  FitQueriesAreNotRefused,
  FitReadableQueriesAreNotRefused,
  FitReadablesAreNotRefused,
  FitRowQueriesAreNotRefused,
  FitSchemasAreNotRefused,
  FitSelfCallersAreNotRefused,
};

/// A file that reads as a schema, a query or a function that breaks no rule, or as a certificate, is refused by no rule. So a
/// file that a rule refuses is none of these. Functions that are a program are refused by none either, nor
/// are calls in a query that may be replaced.
pub fn what_fits_is_not_refused()
    ensures schema { FitSchemasAreNotRefused }
    ensures function { FitFunctionsAreNotRefused }
    ensures self_caller { FitSelfCallersAreNotRefused }
    ensures readable { FitReadablesAreNotRefused }
    ensures program { FitProgramsAreNotRefused }
    ensures query { FitQueriesAreNotRefused }
    ensures readable_query { FitReadableQueriesAreNotRefused }
    ensures calls { FitCallsAreNotRefused }
    ensures rows { FitRowQueriesAreNotRefused }
    ensures certificate { FitCertificatesAreNotRefused }
{}
