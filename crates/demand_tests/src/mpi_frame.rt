//! What stands before the statements of the MPI tables.

/// The variables are g0 to g5, and the statements behind these lines begin at line 7.
pub const FRAME: &str = "int a[8], n;
long b[8];
MPI_Request q[2];
MPI_Status s[2];
MPI_Comm c;
int main(void) {
";
