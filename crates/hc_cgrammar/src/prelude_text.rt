//! What stands in front of each unit.
ghost use Rattle.std.specs.Prelude.{◌≡◌};
ghost use Rattle.hc_cgrammar.specs.Prelude.{prelude, behind_prelude};

use hc_frac::Place;

/// The C that each text begins with: the registers, the functions on fractions, the lines of a trace, the mutex and the conditions,
/// and what `main` does with the threads (version 2 of the trace). It is C11 with the type `__int128`.
pub const PRELUDE: &[u8] = b"\
#include <pthread.h>\n\
#include <stdio.h>\n\
typedef __int128 wide;\n\
static long long hn[65][20480], hd[65][20480];\n\
static pthread_mutex_t hm = PTHREAD_MUTEX_INITIALIZER;\n\
static pthread_cond_t hq[64];\n\
extern const char *const chan_name[];\n\
extern const char *const proc_name[];\n\
static wide up(int r, int a) { return (wide)hn[r][a]; }\n\
static wide dn(int r, int a) { return (wide)hd[r][a] + 1; }\n\
static int fr_put(int r, int d, wide n, wide m) {\n\
\x20 wide a = n < 0 ? -n : n, b = m, t;\n\
\x20 while (b != 0) { t = a % b; a = b; b = t; }\n\
\x20 n /= a; m /= a;\n\
\x20 if (n > 9223372036854775807LL || -n > 9223372036854775807LL) return 0;\n\
\x20 if (m > 9223372036854775807LL) return 0;\n\
\x20 hn[r][d] = (long long)n; hd[r][d] = (long long)(m - 1);\n\
\x20 return 1;\n\
}\n\
static void fr_set(int r, int d, long long n, long long m) { hn[r][d] = n; hd[r][d] = m - 1; }\n\
static void fr_move(int q, int d, int r, int a) { hn[q][d] = hn[r][a]; hd[q][d] = hd[r][a]; }\n\
static int fr_add(int r, int d, int a, int b) {\n\
\x20 return fr_put(r, d, up(r, a) * dn(r, b) + up(r, b) * dn(r, a), dn(r, a) * dn(r, b)); }\n\
static int fr_sub(int r, int d, int a, int b) {\n\
\x20 return fr_put(r, d, up(r, a) * dn(r, b) - up(r, b) * dn(r, a), dn(r, a) * dn(r, b)); }\n\
static int fr_mul(int r, int d, int a, int b) {\n\
\x20 return fr_put(r, d, up(r, a) * up(r, b), dn(r, a) * dn(r, b)); }\n\
static int fr_div(int r, int d, int a, int b) {\n\
\x20 wide n = up(r, a) * dn(r, b), m = dn(r, a) * up(r, b);\n\
\x20 return m < 0 ? fr_put(r, d, -n, -m) : fr_put(r, d, n, m); }\n\
static void fr_neg(int r, int d, int a) { hn[r][d] = -hn[r][a]; hd[r][d] = hd[r][a]; }\n\
static int fr_cmp(int r, int a, int b) {\n\
\x20 wide x = up(r, a) * dn(r, b), y = up(r, b) * dn(r, a);\n\
\x20 return x < y ? -1 : x > y; }\n\
static int fr_sign(int r, int a) { return hn[r][a] < 0 ? -1 : hn[r][a] > 0; }\n\
static void out_frac(int r, int a) {\n\
\x20 if (hd[r][a] == 0) printf(\"%lld\", hn[r][a]);\n\
\x20 else printf(\"%lld/%lld\", hn[r][a], hd[r][a] + 1); }\n\
static void out_delay(int r, int a, int b) {\n\
\x20 out_frac(r, a); printf(\" delay \"); out_frac(r, b); printf(\"\\n\"); }\n\
static void out_comm(int r, int a, int c, int p, int q, int b) {\n\
\x20 out_frac(r, a); printf(\" comm %s %s %s \", chan_name[c], proc_name[p], proc_name[q]);\n\
\x20 out_frac(r, b); printf(\"\\n\"); }\n\
static void out_log(int r, int a, int p, int b) {\n\
\x20 out_frac(r, a); printf(\" log %s \", proc_name[p]); out_frac(r, b); printf(\"\\n\"); }\n\
static void out_end(int k, int r, int a, int w) {\n\
\x20 static const char *const kind[5] = { \"terminated\", \"deadlock\", \"horizon\", \"limit\", \"overflow\" };\n\
\x20 printf(\"end %s \", kind[k]); out_frac(r, a);\n\
\x20 if (k == 4) printf(\" %s\", w < 0 ? \"*\" : proc_name[w]);\n\
\x20 printf(\"\\n\"); }\n\
static void m_lock(void) { pthread_mutex_lock(&hm); }\n\
static void m_unlock(void) { pthread_mutex_unlock(&hm); }\n\
static void c_wait(int k) { pthread_cond_wait(&hq[k], &hm); }\n\
static void c_wake(int k) { pthread_cond_broadcast(&hq[k]); }\n\
static int hc_main(int n, void *(*const f[])(void *)) {\n\
\x20 pthread_t t[64];\n\
\x20 int i;\n\
\x20 for (i = 0; i < 64; i++) pthread_cond_init(&hq[i], 0);\n\
\x20 printf(\"hcsp-trace 2\\n\");\n\
\x20 for (i = 0; i < n; i++) if (pthread_create(&t[i], 0, f[i], 0) != 0) return 5;\n\
\x20 for (i = 0; i < n; i++) pthread_join(t[i], 0);\n\
\x20 return 0;\n\
}\n\
";

/// The place behind the prelude, where a unit begins.
pub const UNIT_PLACE: Place = Place {
    line: 64,
    column: 1,
};

/// `PRELUDE`, for contracts.
pub fn prelude() -> &'static [u8]
    ensures { result.now ≡ prelude }
{
    PRELUDE
}

/// `UNIT_PLACE`, for contracts.
pub fn unit_place() -> Place
    ensures { result ≡ behind_prelude }
{
    UNIT_PLACE
}
