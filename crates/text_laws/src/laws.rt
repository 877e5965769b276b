//! What excludes what, of the bytes of a file.

ghost use Rattle.text_laws.specs.Exclusion.{
  CertificatesAreNotRefused,
  FilesHaveOneList,
  FunctionsAreKept,
  FunctionsAreNotRefused,
  ListsHaveOneNesting,
  QueriesAreKept,
  QueriesAreNotRefused,
  SchemasAreKept,
  SchemasAreNotRefused,
};

/// A list of tokens nests in one way.
pub fn a_list_has_one_nesting()
    ensures { ListsHaveOneNesting }
{}

/// A function's file has one outer list of tokens, one list of its body and one first bad token, if it has any.
pub fn a_file_has_one_list_of_tokens()
    ensures { FilesHaveOneList }
{}

/// Bytes that read as a schema, a query, a function within the limits or a certificate aren't refused: the one refusal that is
/// left is want of memory, which is none of the file.
pub fn what_reads_is_not_refused()
    ensures schema { SchemasAreNotRefused }
    ensures query { QueriesAreNotRefused }
    ensures function { FunctionsAreNotRefused }
    ensures certificate { CertificatesAreNotRefused }
{}

/// Where bytes read as a tree that breaks no rule of names, scopes and types, no tree that they read as is refused for one.
pub fn what_breaks_no_rule_is_kept()
    ensures schema { SchemasAreKept }
    ensures query { QueriesAreKept }
    ensures function { FunctionsAreKept }
{}
